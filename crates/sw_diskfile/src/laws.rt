//! Laws of the definitions, each the contract of a function without arguments.

ghost use Rattle.std.specs.Prelude.{◌≡◌, ◌↔◌, Bool, Contains, IsSome, List};
ghost use Rattle.sw_disk.specs.Folder.{File, Folder, content_at, files_of};
ghost use Rattle.sw_hashpath.specs.FileName.{IsFileName, file_name_text};
ghost use Rattle.sw_hashpath.specs.declared.file_name.FileName.{FileName};
ghost use Rattle.sw_diskfile.specs.Names.{IsDirectoryOf};
ghost use Rattle.sw_diskfile.specs.Normal.{IsNormalForm};

/// A directory has exactly the names of files that are there. Each folder, whatever files it has, has exactly one normal form
/// at a primary, and exactly one at a handoff.
pub fn folder_law()
    ensures names { (folder : Folder) (names : List FileName) → IsDirectoryOf folder names → (name : FileName) →
        Contains names name ↔ (IsFileName name × IsSome (content_at (file_name_text name) (files_of folder))) }
    ensures exists { (is_primary : Bool) (files : List File) → (normal : List File) × IsNormalForm is_primary files normal }
    ensures normal { (is_primary : Bool) (files a b : List File) → IsNormalForm is_primary files a → IsNormalForm is_primary files b → a ≡ b }
{}
