//! Laws of the table, proved over all tables and topics: their bodies are empty.
ghost use Rattle.std.specs.Prelude.{◌≡◌, ℕ, true, List, [], ◌∷◌, ◌++◌};
ghost use Rattle.geo_base.specs.Topic.{accepts};
ghost use Rattle.geo_base.specs.declared.entry.Entry.{Entry};
ghost use Rattle.topic_store.specs.Table.{noted, stream_of, Row, Tells};

/// The empty table tells the empty topic.
#[tactic(auto, using(crate::proofs::Tells::tells_none))]
pub fn law_table_of_nothing()
    ensures { Tells [] [] }
{}

/// A table that tells a topic, and has noted an entry that the topic accepts, tells the topic with that entry after it.
pub fn law_table_with_one_more()
    ensures { (rows : List Row) (es : List Entry) (e : Entry) → Tells rows es → accepts es e.ident ≡ true → Tells (noted rows (stream_of e.ident) e.ident.seq) (es ++ e ∷ []) }
{}
