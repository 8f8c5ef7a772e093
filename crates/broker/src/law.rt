//! Whose plan an event of a broker has.
ghost use Rattle.std.specs.Prelude.{◌≡◌, ℕ, Option};
ghost use Rattle.geo_base.specs.declared.event.Event.{Event};
ghost use Rattle.geo_base.specs.declared.packet.Packet.{Packet};
ghost use Rattle.geo_base.specs.Planned.{broker_plan};
ghost use Rattle.geo_base.specs.Setup.{Setup};
ghost use Rattle.broker.specs.Events.{IsNodeOf, IsOfNode, IsOfTopic, plan_at_node};
ghost use Rattle.broker.specs.Node.{BrokerView};

/// The plan of an event at a broker of a setup is the one that the machine has for it there.
pub fn law_node_plan()
    ensures { (s : Setup) (t x : ℕ) (v : BrokerView) (e : Event) (p : Option Packet)
        → IsNodeOf s t x v → IsOfNode v e → IsOfTopic s t e → plan_at_node v e p ≡ broker_plan s v.broker e p }
{}
