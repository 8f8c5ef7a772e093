//! What the bytes of a state file, and of its parts, are read as.
ghost use Rattle.std.specs.Prelude.{ℕ, List, Option};
ghost use Rattle.geo_base.specs.declared.entry.Entry.{Entry};
ghost use Rattle.geo_base.specs.Broker.{Broker};
ghost use Rattle.geo_base.specs.Setup.{Setup};
ghost use Rattle.message_meta.specs.Metadata.{Metadata};
ghost use Rattle.state_items.specs.Reading.{Answer, Read};
ghost use Rattle.state_items.specs.Stored.{IsStored};
ghost use Rattle.state_nodes.specs.Entries.{AreEntries, IsEntry, Says};
ghost use Rattle.state_nodes.specs.Nodes.{IsNode};
ghost use Rattle.state_file.specs.Loading.{IsLoaded, Loaded};
ghost use Rattle.state_file.specs.Reading.{AreNodes, IsBody};
ghost use Rattle.state_file.specs.State.{SavedState};
ghost use Rattle.codec_laws.specs.Answers.{AreBytes};

/// Any bytes say some metadata or say none; any metadata and payload are an entry, whichever cluster stored it first; and any bytes are read
/// as an entry after others, and as a number of entries, or as the first item that breaks a rule.
pub fn law_entries()
    ensures metadata { (bytes : List ℕ) → AreBytes bytes → (said : Option Metadata) × Says bytes said }
    ensures stored { (names : List (List ℕ)) (m : Metadata) (x : ℕ) (payload : List ℕ) → AreBytes payload → (e : Entry) × IsStored names m x payload e }
    ensures entry { (names : List (List ℕ)) (own : ℕ) (before : List Entry) (bytes : List ℕ) → AreBytes bytes → (read : Read Entry) × IsEntry names own before bytes read }
    ensures entries { (names : List (List ℕ)) (own count : ℕ) (bytes : List ℕ) → AreBytes bytes → (read : Read (List Entry)) × AreEntries names own count bytes read }
{}

/// Any bytes are read as the durable part of a broker, and as those of a setup, or as the first item that breaks a rule, whatever the version.
pub fn law_brokers()
    ensures broker { (version per : ℕ) (names : List (List ℕ)) (own : ℕ) (bytes : List ℕ) → AreBytes bytes → (read : Read Broker) × IsNode version per names own bytes read }
    ensures brokers { (version : ℕ) (s : Setup) (bytes : List ℕ) → AreBytes bytes → (read : Read (List Broker)) × AreNodes version s bytes read }
{}

/// Any bytes are loaded as a state, or refused; so are those of a body after its size.
pub fn law_loaded()
    ensures body { (version size : ℕ) (bytes : List ℕ) → AreBytes bytes → (read : Answer SavedState) × IsBody version size bytes read }
    ensures file { (bytes : List ℕ) → AreBytes bytes → (answer : Loaded) × IsLoaded bytes answer }
{}
