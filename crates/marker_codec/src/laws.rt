//! What holds of the grammar of markers alone, whoever reads or writes.

ghost use Rattle.std.specs.Prelude.{◌≡◌, ℕ, List, length};
ghost use Rattle.geo_base.specs.declared.marker.Marker.{Marker as MachineMarker};
ghost use Rattle.geo_base.specs.Sizes.{marker_size, marker_type};
ghost use Rattle.pb_fields.specs.Canonical.{text, AscendFrom};
ghost use Rattle.marker_codec.specs.declared.marker.Marker.{Marker};
ghost use Rattle.marker_codec.specs.declared.marker.ClusterMessageId.{ClusterMessageId};
ghost use Rattle.marker_codec.specs.declared.fault.MarkerFault.{MarkerFault};
ghost use Rattle.marker_codec.specs.Kinds.{kind_number, marker_kind};
ghost use Rattle.marker_codec.specs.Markers.{IsMarkerText};
ghost use Rattle.marker_codec.specs.Faults.{WrongMarker};
ghost use Rattle.marker_codec.specs.Machine.{named_marker};
ghost use Rattle.marker_codec.specs.Canonical.{IsMarker, canonical_fields, cluster_fields, position_fields};

/// Bytes of a kind are a text of one marker at most, have one fault at most, and not both.
pub fn one_meaning()
    ensures text { (number : ℕ) (bytes : List ℕ) (m n : Marker) → IsMarkerText number bytes m → IsMarkerText number bytes n → m ≡ n }
    ensures fault { (number : ℕ) (bytes : List ℕ) (a b : MarkerFault) → WrongMarker number bytes a → WrongMarker number bytes b → a ≡ b }
    ensures either { (number : ℕ) (bytes : List ℕ) (m : Marker) (e : MarkerFault) → IsMarkerText number bytes m → WrongMarker number bytes e → ⊥ }
{}

/// The canonical text of a marker is a text of it and of no other, and its fields stand by ascending number, also those of
/// the messages in it.
pub fn canonical_marker()
    ensures text { (m : Marker) → IsMarker m → IsMarkerText (kind_number (marker_kind m)) (text (canonical_fields m)) m }
    ensures no_other { (m n : Marker) → IsMarker m → IsMarkerText (kind_number (marker_kind m)) (text (canonical_fields m)) n → n ≡ m }
    ensures ascending { (m : Marker) → AscendFrom 1 (canonical_fields m) }
    ensures ascending_within { (c : ClusterMessageId) → AscendFrom 1 (cluster_fields c) × AscendFrom 1 (position_fields c.message_id) }
{}

/// The written machine's sizes and numbers of markers are those of the markers that it names.
pub fn machine_sizes()
    ensures size { (names : List (List ℕ)) (m : MachineMarker) → length (text (canonical_fields (named_marker names m))) ≡ marker_size names m }
    ensures number { (names : List (List ℕ)) (m : MachineMarker) → kind_number (marker_kind (named_marker names m)) ≡ marker_type m }
{}
