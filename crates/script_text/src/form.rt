//! The short forms of steps: a script has millions of steps, and nearly all of them fit 16 bytes.
ghost use Rattle.std.specs.Prelude.{◌≡◌, true, [], length, IfSome};
ghost use Rattle.geo_base.specs.declared.event.Step.TheVariants as step;
ghost use Rattle.script_text.specs.Forms.{IsAmong, is_short, step_in};

use geo_base::{Event, Fate, Step};
use std::marker::Model;

/// A step in 16 bytes, the small fields first. What does not fit, a seek or a stop in the midst of an event, stands apart, and
/// its form is its place there.
#[derive(Clone, Copy, Drop)]
pub(crate) enum Form {
    Go(u32),
    Get(u32),
    Reconnect(u32),
    Serve(u32, u32),
    Drop(u32, u32),
    Reset(u32, u32, u32),
    Read(u32, u32, u32),
    Take(Fate, u32, u32, u32),
    Receipt(Fate, u32, u32, u32),
    Snap(u32, u32),
    Offer(u32, u32, u32),
    Restart(u32, u32),
    Settle,
    Stop,
    Apart(usize),
}

const _: () = prove!(size_of::<Form>() == 16);

impl Form {
    /// The step, beside those that stand apart.
    pub(crate) fn step(&self, apart: &[Step]) -> Step
        requires { IsAmong (length apart.now) self.now }
        ensures { result ≡ step_in apart.now self.now }
    {
        Step::Plain(match *self {
            Form::Go(client) => Event::Go { client },
            Form::Get(client) => Event::Get { client },
            Form::Reconnect(client) => Event::Reconnect { client },
            Form::Serve(cluster, client) => Event::Serve { cluster, client },
            Form::Drop(cluster, client) => Event::Drop { cluster, client },
            Form::Reset(topic, source, target) => Event::Reset {
                topic,
                source,
                target,
            },
            Form::Read(topic, source, target) => Event::Read {
                topic,
                source,
                target,
            },
            Form::Take(fate, topic, source, target) => Event::Take {
                topic,
                source,
                target,
                fate,
            },
            Form::Receipt(fate, topic, source, target) => Event::Receipt {
                topic,
                source,
                target,
                fate,
            },
            Form::Snap(topic, cluster) => Event::Snap { topic, cluster },
            Form::Offer(topic, cluster, sub) => Event::Offer {
                topic,
                cluster,
                sub,
            },
            Form::Restart(topic, cluster) => Event::Restart { topic, cluster },
            Form::Settle => return Step::Settle,
            Form::Stop => return Step::Stop,
            Form::Apart(place) => return apart[place],
        })
    }
}

/// A step whose form is all of it.
#[derive(Drop)]
pub(crate) struct Short {
    form: Form,
}

impl Model for Short {
    ghost use Rattle.std.specs.Prelude.{◌≡◌, true, []};
    ghost use Rattle.geo_base.specs.declared.event.Step.{Step};
    ghost use Rattle.script_text.specs.Forms.{is_short, step_in};

    ghost Value = { Step };

    ghost view = { λ s. step_in [] s.form };

    ghost invariant = { λ s. is_short s.form ≡ true };
}

impl Short {
    /// A step that has a short form.
    pub(crate) fn of(step: &Step) -> Option<Short>
        ensures { IfSome result (λ short. short ≡ step.now) }
    {
        Some(Short {
            form: match *step {
                Step::Plain(event) => short_form(&event)?,
                Step::Halt(..) => return None,
                Step::Settle => Form::Settle,
                Step::Stop => Form::Stop,
            },
        })
    }

    /// Its form.
    pub(crate) fn form(&self) -> Form
        ensures short { is_short result ≡ true }
        ensures step { step_in [] result ≡ self.now }
    {
        self.form
    }
}

/// The form of an event but a seek, whose position takes more room.
fn short_form(event: &Event) -> Option<Form>
    ensures short { IfSome result (λ form. is_short form ≡ true) }
    ensures event { IfSome result (λ form. step_in [] form ≡ step.Plain event.now) }
{
    Some(match *event {
        Event::Go { client } => Form::Go(client),
        Event::Get { client } => Form::Get(client),
        Event::Reconnect { client } => Form::Reconnect(client),
        Event::Serve { cluster, client } => Form::Serve(cluster, client),
        Event::Drop { cluster, client } => Form::Drop(cluster, client),
        Event::Reset {
            topic,
            source,
            target,
        } => Form::Reset(topic, source, target),
        Event::Read {
            topic,
            source,
            target,
        } => Form::Read(topic, source, target),
        Event::Take {
            topic,
            source,
            target,
            fate,
        } => Form::Take(fate, topic, source, target),
        Event::Receipt {
            topic,
            source,
            target,
            fate,
        } => Form::Receipt(fate, topic, source, target),
        Event::Snap { topic, cluster } => Form::Snap(topic, cluster),
        Event::Offer {
            topic,
            cluster,
            sub,
        } => Form::Offer(topic, cluster, sub),
        Event::Restart { topic, cluster } => Form::Restart(topic, cluster),
        Event::Seek { .. } => return None,
    })
}
