//! What is checked of a tree that was loaded.
ghost use Rattle.std.specs.Prelude.{◌≡◌, List, ℕ, true, false, Some};
ghost use Rattle.std.specs.Option.{option_copied, ForSome};
ghost use Rattle.std.specs.FinMap as map;
ghost use Rattle.dav_key.specs.Key.{Key};
ghost use Rattle.dav_resource.specs.PathText.{IsSegment};
ghost use Rattle.dav_tree.specs.Entry.{is_file};
ghost use Rattle.dav_tree.specs.Kept.{resources_by};
ghost use Rattle.dav_tree.specs.Loading.{IsSoundAt, AreSoundKeys};
ghost use Rattle.dav_tree.specs.Memory.{IsSound};

use crate::entry::Entry;
use dav_nodes::Nodes;
use dav_resource::is_segment;

/// Returns whether a store can have these resources: the root and each parent is a directory, each name may be a
/// segment of a path, and each property's element has the property's name.
pub(crate) fn are_sound<B>(nodes: &Nodes<Entry<B>>) -> bool
    ensures sound { result ≡ true → (bytes : B → List ℕ) → IsSound (resources_by bytes nodes.now) }
    ensures passes { (bytes : B → List ℕ) → IsSound (resources_by bytes nodes.now) → result ≡ true }
{
    nodes.show_linked();
    nodes.show_root();
    are_keys_sound(nodes)
}

/// Returns whether this is so at each key with a number.
fn are_keys_sound<B>(nodes: &Nodes<Entry<B>>) -> bool
    ensures sound { result ≡ true → AreSoundKeys nodes.now }
    ensures passes { AreSoundKeys nodes.now → result ≡ true }
{
    for number in 0..nodes.max_len() {
        if !is_sound_at(nodes, number) {
            return false;
        }
    }
    true
}

/// Returns whether this is so at the key with a number, if there is one.
fn is_sound_at<B>(nodes: &Nodes<Entry<B>>, number: usize) -> bool
    ensures sound { result ≡ true → IsSoundAt nodes.now number }
    ensures passes { IsSoundAt nodes.now number → result ≡ true }
{
    nodes.show_linked();
    let Some(placed) = nodes.placed(number) else {
        return true;
    };
    if !is_name(placed.name) {
        return false;
    }
    if !is_directory_at(nodes, placed.above) {
        return false;
    }
    placed.value.properties.are_named()
}

/// Returns whether the entry with a number is a directory.
fn is_directory_at<B>(nodes: &Nodes<Entry<B>>, number: usize) -> bool
    ensures sound { result ≡ true → (key : Key) → map.get nodes.now.numbers key ≡ Some number → ForSome (map.get nodes.now.values key) (λ e. is_file e.content ≡ false) }
    ensures passes { (key : Key) → map.get nodes.now.numbers key ≡ Some number → ForSome (map.get nodes.now.values key) (λ e. is_file e.content ≡ false) → result ≡ true }
{
    match nodes.at(number) {
        Some(entry) => entry.is_directory(),
        None => true,
    }
}

/// Returns whether a name, if there is one, may be a segment of a path.
fn is_name(name: Option<&str>) -> bool
    ensures sound { result ≡ true → ForSome (option_copied name.entry) IsSegment }
    ensures passes { ForSome (option_copied name.entry) IsSegment → result ≡ true }
{
    match name {
        Some(name) => is_segment(name),
        None => true,
    }
}
