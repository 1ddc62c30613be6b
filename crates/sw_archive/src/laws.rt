//! Laws of the definitions, each the contract of a function without arguments.

ghost use Rattle.std.specs.Prelude.{◌≡◌, ◌<◌, ◌+◌, ◌++◌, ◌⊎◌, List, ℕ, []};
ghost use Rattle.sw_words.specs.Bytes.{IsBytes};
ghost use Rattle.sw_types.specs.Name.{NameModel};
ghost use Rattle.sw_types.specs.Object.{IsObject, ObjectModel};
ghost use Rattle.sw_types.specs.Policy.{PolicyModel};
ghost use Rattle.sw_archive.specs.Archive.{ArchiveModel, IsArchive};
ghost use Rattle.sw_archive.specs.Assemble.{AreEnough, AreTogether, IsFurther, IsOther, IsTold};
ghost use Rattle.sw_archive.specs.Fault.{IsFault};
ghost use Rattle.sw_archive.specs.Pieces.{AreOfPieces, IsDecoded};
ghost use Rattle.sw_archive.specs.Put.{IsPut, put_archive, put_fields};
ghost use Rattle.sw_archive.specs.declared.fault.ArchiveFault.{ArchiveFault as Fault};

/// What is put has archives, with the fields of the put.
pub fn put_law()
    ensures archive { (policy : PolicyModel) (stamp : ℕ) (name : NameModel) (object : ObjectModel) (index : ℕ) → IsPut policy stamp name object → index < policy.k + policy.m →
        IsArchive (put_archive policy stamp name object index) (put_fields policy stamp name object index) }
{}

/// No archive is a proper prefix of another, and the bytes of an archive are those of one archive alone.
pub fn archive_law()
    ensures no_prefix { (a b rest : List ℕ) (first second : ArchiveModel) → IsArchive a first → IsArchive b second → a ≡ b ++ rest → (first ≡ second) × (rest ≡ []) }
{}

/// Bytes are an archive or have a fault, and not both, and they have one fault at most.
pub fn fault_law()
    ensures either { (bytes : List ℕ) → IsBytes bytes → ((archive : ArchiveModel) × IsArchive bytes archive) ⊎ ((fault : Fault) × IsFault bytes fault) }
    ensures not_both { (bytes : List ℕ) (archive : ArchiveModel) (fault : Fault) → IsArchive bytes archive → ¬ (IsFault bytes fault) }
    ensures one { (bytes : List ℕ) (first second : Fault) → IsFault bytes first → IsFault bytes second → first ≡ second }
{}

/// Any k archives that stand beside one another are of some pieces, and of no others, so that they hold one body.
pub fn pieces_law()
    ensures some { (archives : List ArchiveModel) → AreEnough archives → AreTogether archives → (pieces : List (List ℕ)) × AreOfPieces archives pieces }
    ensures one { (archives : List ArchiveModel) (a b : List (List ℕ)) → AreEnough archives → AreTogether archives → AreOfPieces archives a → AreOfPieces archives b → a ≡ b }
    ensures body { (archives : List ArchiveModel) (a b : List ℕ) → AreEnough archives → AreTogether archives → IsDecoded archives a → IsDecoded archives b → a ≡ b }
{}

/// k archives that stand beside one another tell one object, and no other MD5 than its body's, and each index has one further archive
/// beside them.
pub fn assemble_law()
    ensures object { (archives : List ArchiveModel) (a b : ObjectModel) → AreEnough archives → AreTogether archives → IsTold archives a → IsTold archives b → a ≡ b }
    ensures not_both { (archives : List ArchiveModel) (object : ObjectModel) (told computed : List ℕ) → AreEnough archives → AreTogether archives → IsObject object → IsTold archives object →
        ¬ (IsOther archives told computed) }
    ensures further { (archives : List ArchiveModel) (index : ℕ) (a b : List ℕ) → AreEnough archives → AreTogether archives → IsFurther archives index a → IsFurther archives index b → a ≡ b }
{}
