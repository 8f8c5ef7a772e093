//! Clusters by their names.
ghost use Rattle.std.specs.Prelude.{◌≡◌, ◌+◌, ◌<◌, ◌≤◌, ◌^◌, List, length, IfOk};
ghost use Rattle.std.specs.Option.{option_copied, option_map};
ghost use Rattle.geo_base.specs.Sizes.{cluster_ref_name};
ghost use Rattle.frame_values.specs.Values.{bits_of, lists, place_from, place_of, targets_of};
ghost use Rattle.frame_values.specs.Coded.{place_or};

use geo_base::limits::CLUSTERS;
use geo_base::{ClusterName, ClusterRef, Memory, Sequence, Targets, Text};
use std::alloc::Global;

/// The cluster that a text names, or the text, where it names none.
pub(crate) fn place_of(names: &[ClusterName], name: Text) -> ClusterRef
    requires { length names.now < 2 ^ 32 }
    ensures { result ≡ place_of names.now name }
{
    match number_of(names, 0, name.as_bytes()) {
        Some(number) => ClusterRef::Known(number),
        None => ClusterRef::Stranger(name),
    }
}

/// The number of the first cluster of a name, counted from `first` on; None exactly where none has it.
pub fn number_of(names: &[ClusterName], first: u32, name: &[u8]) -> Option<u32>
    requires { first + length names.now < 2 ^ 32 }
    ensures { place_from first names.now name.now ≡ place_or name.now result }
{
    match names {
        [] => None,
        [known, ..] if known.as_str().as_bytes() == name => Some(first),
        [_, others @ ..] => number_of(others, first + 1, name),
    }
}

/// The same of a name that may be absent.
pub(crate) fn optional_cluster_ref(names: &[ClusterName], name: Option<Text>) -> Option<ClusterRef>
    requires { length names.now < 2 ^ 32 }
    ensures { result ≡ option_map (place_of names.now) name }
{
    match name {
        None => None,
        Some(name) => Some(place_of(names, name)),
    }
}

/// The clusters that a target list names; an empty one names all.
pub fn targets_of(names: &[ClusterName], listed: &[Text]) -> Targets
    requires { length names.now ≤ CLUSTERS }
    ensures { result ≡ targets_of names.now listed.now }
{
    if listed.is_empty() {
        return Targets::All;
    }
    Targets::Only(bits_of(names, listed))
}

/// A bit for each cluster that is listed.
fn bits_of(names: &[ClusterName], listed: &[Text]) -> u8
    requires { length names.now ≤ CLUSTERS }
    ensures value { result ≡ bits_of names.now listed.now }
    ensures range { result < 2 ^ length names.now }
{
    match names {
        [] => 0,
        [first, others @ ..] => {
            u8::from(is_listed(listed, first.as_str().as_bytes())) + 2 * bits_of(others, listed)
        }
    }
}

/// Whether a target list has a name.
fn is_listed(listed: &[Text], name: &[u8]) -> bool
    ensures { result ≡ lists listed.now name.now }
{
    listed.iter().any(|text| text.as_bytes() == name)
}

/// The text of a place: the cluster's name, or the name that no cluster has. Empty where there is no such cluster.
pub(crate) fn name_of<'a>(names: &'a [ClusterName], place: &'a ClusterRef) -> &'a str
    ensures { result.now ≡ cluster_ref_name names.entry.now place.entry.now }
{
    match place {
        ClusterRef::Known(number) => match names.get(*number as usize) {
            Some(name) => name.as_str(),
            None => "",
        },
        ClusterRef::Stranger(name) => name.as_str(),
    }
}
