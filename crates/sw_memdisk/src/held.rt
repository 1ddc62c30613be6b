//! Files of a folder in memory, and changes of their names.

ghost use Rattle.std.specs.Prelude.{◌≡◌, ◌+◌, ◌<◌, ◌≤◌, [], ◌∷◌, ◌++◌, length, map, vec_capacity, vec_len};
ghost use Rattle.sw_memdisk.specs.Held.{all_moved, content_of, held_renamed, moved};
ghost use Rattle.sw_memdisk.specs.Log.{crashed_content};

use arrayvec::ArrayString;

/// The name of a file, which takes no memory.
pub(crate) type Label = ArrayString<96>;

/// The bytes of a file, and whether they are on the disk.
#[derive(Debug, Drop)]
pub(crate) struct MemContent {
    pub(crate) bytes: Vec<u8>,
    pub(crate) synced: bool,
}

/// A file: its name, and which of the folder's contents it has.
#[derive(Clone, Copy, Debug)]
pub(crate) struct Held {
    pub(crate) name: Label,
    pub(crate) content: usize,
}

/// A change of names.
#[derive(Clone, Copy, Debug)]
pub(crate) enum Move {
    Publish(Held),
    Rename(Label, Label),
    Remove(Label),
}

// A short text as a name.
pub(crate) fn label(text: &str) -> Label
    requires { length text.now ≤ 96 }
    ensures { result.bytes ≡ text.now }
{
    let mut label = Label::new();
    label.push_str(text);
    label
}

// Does a change to the files, and records it.
pub(crate) fn note(files: &mut Vec<Held>, changes: &mut Vec<Move>, change: Move)
    requires files { vec_len files.old < vec_capacity files.old }
    requires changes { vec_len changes.old < vec_capacity changes.old }
    ensures files { files.new.items ≡ moved change files.old.items }
    ensures changes { changes.new.items ≡ changes.old.items ++ change ∷ [] }
    ensures files_capacity { vec_capacity files.old ≤ vec_capacity files.new }
    ensures changes_capacity { vec_capacity changes.old ≤ vec_capacity changes.new }
{
    apply(files, &change);
    changes.push_reserved(change);
}

// Does a change to files that have room for one more.
fn apply(files: &mut Vec<Held>, change: &Move)
    requires { vec_len files.old < vec_capacity files.old }
    ensures files { files.new.items ≡ moved change.now files.old.items }
    ensures len { vec_len files.new ≤ vec_len files.old + 1 }
    ensures capacity { vec_capacity files.old ≤ vec_capacity files.new }
{
    match change {
        Move::Publish(held) => files.push_reserved(*held),
        Move::Rename(from, to) => rename_all(files, from, to),
        Move::Remove(name) => files.retain(|held| held.name.as_str() != name.as_str()),
    }
}

// Does changes, one after the other, to files that have room for as many more.
pub(crate) fn apply_all(files: &mut Vec<Held>, changes: &[Move])
    requires { vec_len files.old + length changes.now ≤ vec_capacity files.old }
    ensures files { files.new.items ≡ all_moved changes.now files.old.items }
    ensures len { vec_len files.new ≤ vec_len files.old + length changes.now }
    ensures capacity { vec_capacity files.old ≤ vec_capacity files.new }
{
    for change in changes {
        apply(files, change);
    }
}

fn rename_all(files: &mut [Held], from: &Label, to: &Label)
    ensures { files.new ≡ map (held_renamed from.now to.now) files.old }
{
    for held in files.iter_mut() {
        *held = renamed(held, from, to);
    }
}

fn renamed(held: &Held, from: &Label, to: &Label) -> Held
    ensures { result ≡ held_renamed from.now to.now held.now }
{
    if held.name.as_str() == from.as_str() {
        Held {
            name: *to,
            content: held.content,
        }
    } else {
        *held
    }
}

// Makes files the same as others, within their capacity.
pub(crate) fn copy_files(files: &mut Vec<Held>, others: &[Held])
    requires { length others.now ≤ vec_capacity files.old }
    ensures files { files.new.items ≡ others.now }
    ensures capacity { vec_capacity files.old ≤ vec_capacity files.new }
{
    files.clear();
    for held in others {
        files.push_reserved(*held);
    }
}

// Makes zeros of all bytes that are not on the disk; what is left is on it.
pub(crate) fn lose_all(contents: &mut [MemContent])
    ensures { map content_of contents.new ≡ map crashed_content (map content_of contents.old) }
{
    for content in contents.iter_mut() {
        lose_unsynced(content);
    }
}

// Makes zeros of the bytes of one content, unless they are on the disk.
fn lose_unsynced(content: &mut MemContent)
    ensures { content_of content.new ≡ crashed_content (content_of content.old) }
{
    if !content.synced {
        content.bytes.fill(0);
        content.synced = true;
    }
}
