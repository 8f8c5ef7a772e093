//! What a client's events ask of a setup.
ghost use Rattle.std.specs.Prelude.{◌≡◌, true};
ghost use Rattle.std.specs.List.{list_all};
ghost use Rattle.geo_base.specs.Client.{Client, reconnect};
ghost use Rattle.geo_base.specs.Going.{go};
ghost use Rattle.geo_base.specs.Scripted.{is_declared};
ghost use Rattle.geo_base.specs.Setup.{Declared, Setup};
ghost use Rattle.client.specs.Site.{is_short_line, known_setup};

/// The events of a client ask for the names of clusters and topics alone: with these they are those of the whole setup.
pub fn law_known_names()
    ensures goes { (s : Setup) (d : Declared) (k : Client) → go (known_setup s.clusters s.topics) d k ≡ go s d k }
    ensures reconnects { (s : Setup) (d : Declared) (k : Client) → reconnect (known_setup s.clusters s.topics) d k ≡ reconnect s d k }
{}

/// Each line that a script can declare has a small frame.
pub fn law_short_lines()
    ensures { (s : Setup) (d : Declared) → is_declared s d ≡ true → list_all is_short_line d.lines ≡ true }
{}
