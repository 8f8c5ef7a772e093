//! What an actor draws.
ghost use Rattle.std.specs.Prelude.{◌≡◌};
ghost use Rattle.actors.specs.Drawing.{after_draw, drawing_of, drawn, fate_drawn, fate_of, rest, restart_drawn, seeded};

use geo_base::Fate;
use rand_core::utils::NextWord;
use rand_pcg::Lcg64Xsh32;
use script_text::Chance;
use std::marker::Model;

/// Chances are given in parts of so many.
const PARTS: u32 = 1_000;

/// Where an actor's chances come from: PCG's generator of 32-bit words, seeded by the script's number, on the stream of the actor's
/// number. Where the script says no chances, nothing is drawn.
#[derive(Drop)]
pub struct Draws {
    chance: Option<Chance>,
    random: Lcg64Xsh32,
}

impl Model for Draws {
    ghost use Rattle.actors.specs.Drawing.{Drawing};

    ghost Value = { Drawing };

    ghost view = { λ d. record { chance = d.chance; generator = d.random } };
}

impl Draws {
    /// The draws of the actor of a number, by a script's chances.
    #[tactic(auto, unfolding(crate::specs::Drawing::seeded))]
    pub fn new(chance: Option<Chance>, actor: u32) -> Draws
        ensures { result ≡ drawing_of chance actor }
    {
        let number = match chance {
            None => 0,
            Some(chance) => chance.number,
        };
        Draws {
            chance,
            random: Lcg64Xsh32::new(number as u64, actor as u64),
        }
    }

    /// What becomes of the next packet. It is drawn where the script says chances; otherwise each packet is acted on once.
    pub fn fate(&mut self) -> Fate
        ensures value { result ≡ fate_drawn self.old }
        ensures rest { self.new ≡ after_draw self.old }
    {
        match self.chance {
            None => Fate::Good,
            Some(chance) => fate_of(chance, draw(&mut self.random)),
        }
    }

    /// Whether a broker restarts. It is drawn where the script says chances; otherwise none does.
    pub fn restart(&mut self) -> bool
        ensures value { result ≡ restart_drawn self.old }
        ensures rest { self.new ≡ after_draw self.old }
    {
        match self.chance {
            None => false,
            Some(chance) => draw(&mut self.random) < chance.restart,
        }
    }
}

/// A number below 1,000.
#[tactic(auto, unfolding(crate::specs::Drawing::drawn, crate::specs::Drawing::rest))]
fn draw(random: &mut Lcg64Xsh32) -> u32
    ensures value { result ≡ drawn random.old }
    ensures rest { random.new ≡ rest random.old }
{
    random.next_word() % PARTS
}

/// What a drawn number makes of a packet.
fn fate_of(chance: Chance, number: u32) -> Fate
    ensures { result ≡ fate_of chance number }
{
    if number < chance.lost {
        Fate::Lost
    } else if number - chance.lost < chance.twice {
        Fate::Twice
    } else {
        Fate::Good
    }
}
