//! The text of an observation, read; and what is found against one, in lines.
//!
//! The text has the declarations of a script, the line `observed` or `observed quiet`, and then a line for each thing that was read or
//! logged:
//!
//! | line | meaning |
//! |---|---|
//! | `observed`, `observed quiet` | the head: nothing moved while all was read where it says `quiet` |
//! | `entry T X ENTRY` | the next entry of topic T at cluster X, as a report shows it |
//! | `cursor T X S RANGES` | the indexes that subscription S acknowledged there |
//! | `brought T X Y RANGES` | the indexes that the cursor of X's replicator to Y has |
//! | `unread T X` | the topic was not read at X |
//! | `done T S ORIGIN PRODUCER SEQ` | a client acknowledged the message on S |
//! | `below T X S INDEX` | S was created at Latest at X, or sought there: it is done with all below the index |
//! | `unsure T X S` | S did something at X with a message that is not told: it may be done with any that does not stand there |
//! | `receipt T ORIGIN PRODUCER SEQ L:E` | a producer has a receipt for the message |
//! | `trimmed T X` | the beginning of the topic may be deleted at X: that is not judged, and refused |
//!
//! Their order is free, but that an index names an entry whose line stands before it. A line is refused by the lowest rule that it breaks:
//!
//! | rule | a line is refused where |
//! |---|---|
//! | 1 | it has none of these forms, or names a topic or a cluster that is not declared; or the last line has no line feed |
//! | 2 | it says `trimmed` |
//! | 3 | it is of a topic at a cluster that was not read, but for `unsure`; or says so of one of which something was read, or a second time |
//! | 4 | the position of an entry is not above the last one of its topic there |
//! | 5 | a cursor or a replicator's cursor stands there already, or one is to its own cluster |
//! | 6 | an index is none of an entry that stands there; of `below` it may be the next one |
//! | 7 | the topic would have more subscriptions than a topic takes, 32 |
#![tactic(auto)]

mod answer;
mod asked;
mod fault;
mod line;
mod lines;
mod named;
mod reading;
mod refusing;
mod so_far;
mod taking;

pub use answer::findings_text;
pub use asked::observed_start;
pub use fault::ObserveFault;
pub use reading::read_observed;
