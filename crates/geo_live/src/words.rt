//! The words of the command that runs nodes on threads.
ghost use Rattle.std.specs.Prelude.{◌≡◌, ◌<◌, ◌≤◌, IfSome};
ghost use Rattle.geo_live.specs.Words.{allowed, live_of, most_turns, most_workers, numbered};

use geo_top::Word;
use script_rows::number_of;

/// The most workers, each of which is a thread (own).
const MOST_WORKERS: u64 = 64;

/// The most turns of all workers together: as many as a run has events (own).
const MOST_TURNS: u64 = 2_000_000;

/// What `live WORKERS TURNS` asks for: so many workers, each with so many turns.
#[derive(Clone, Copy, Drop)]
pub(crate) struct Live {
    pub workers: u32,
    pub turns: u64,
}

impl Live {
    /// What words ask for; None where they are not those of `live`.
    pub fn read(words: &[Word]) -> Option<Live>
        ensures asked { result ≡ live_of words.now }
        ensures some { IfSome result (λ asked. 0 < asked.workers) }
    {
        match words {
            [word, workers, turns] => Live::named(word, workers, turns),
            _ => None,
        }
    }

    /// A word with two numbers.
    #[tactic(auto, using(script_rows::proofs::Chosen::number_small))]
    fn named(word: &Word, workers: &Word, turns: &Word) -> Option<Live>
        ensures asked { result ≡ numbered word.now workers.now turns.now }
        ensures some { IfSome result (λ asked. 0 < asked.workers) }
    {
        if word.as_bytes() != b"live".as_slice() {
            return None;
        }
        let workers = number_of(workers.as_bytes(), MOST_WORKERS)?;
        let turns = number_of(turns.as_bytes(), MOST_TURNS)?;
        Live::allowed(workers, turns)
    }

    /// So many workers and turns, where there may be so many.
    fn allowed(workers: u64, turns: u64) -> Option<Live>
        requires workers { workers ≤ most_workers }
        requires turns { turns ≤ most_turns }
        ensures asked { result ≡ allowed workers turns }
        ensures some { IfSome result (λ asked. 0 < asked.workers) }
    {
        if workers < 1 || turns < 1 || workers * turns > MOST_TURNS {
            return None;
        }
        Some(Live {
            workers: workers as u32,
            turns,
        })
    }
}
