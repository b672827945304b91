ghost use Rattle.std.specs.Prelude.{◌≡◌, [], None, false};
ghost use Rattle.fj_rules.specs.Answers.{answer};
ghost use Rattle.fj_body.specs.Turns.{ToldRight};
ghost use Rattle.fj_body.specs.Fitting.{Fits};
ghost use Rattle.fj_rules.specs.ChoiceTaken.{TakesChoice};
ghost use Rattle.fj_body.specs.Choosing.{Chooses, Polls, Helps, Joins};

use crate::due::Due;
use crate::release::release_due;
use crate::store::Store;
use fj_body::{Body, Heard, Told};
use fj_rules::{Refusal, Said, Serial, Step};
use fj_slots::Hand;

impl<B: Body> Store<B> {
    /// Makes a step that takes the worker's choice, and moves its body.
    #[inline(always)]
    fn choose(&mut self, hand: &mut Hand<B>, asked: &Step) -> Told<B>
        requires fits { Fits self.old.past hand.old }
        requires takes { TakesChoice hand.old.worker (answer self.old.past asked.now).0 (answer self.old.past asked.now).1 }
        ensures chooses { Chooses self.old hand.old asked.now result self.new hand.new }
        ensures fits { Fits self.new.past hand.new }
    {
        match self.machine.step(asked) {
            Said::Run(t) => match self.bodies.take(t) {
                Some(body) => {
                    hand.push(t, body);
                    Told::Run(t)
                }
                None => unreachable!(),
            },
            Said::Skip(t) => match self.bodies.take(t) {
                Some(body) => {
                    let due = Due::One(t);
                    release_due(&mut self.machine, &mut self.taken, &mut self.stuck, due);
                    Told::Skip(t, body)
                }
                None => unreachable!(),
            },
            Said::None => Told::None,
            Said::Normal => Told::Hear(Heard::Bare),
            Said::Exceptional(code) => Told::Hear(Heard::Failed(code)),
            Said::Cancelled => Told::Hear(Heard::Cancelled),
            Said::Refused(refusal) => Told::Hear(Heard::Refused(refusal)),
            _ => unreachable!(),
        }
    }

    /// An idle worker asks for its next task. Gets stuck if the history is full. Precondition: the hand fits and is empty.
    #[inline(always)]
    pub fn poll(&mut self, hand: &mut Hand<B>) -> Told<B>
        requires fits { Fits self.old.past hand.old }
        requires idle { (hand.old.stack ≡ []) × (hand.old.hook ≡ None) }
        ensures polls { Polls self.old hand.old result self.new hand.new }
        ensures fits { Fits self.new.past hand.new }
    {
        if self.stuck {
            return Told::Stuck(None);
        }
        let r = hand.take_word();
        let asked = Step::Poll {
            w: hand.worker(),
            r,
        };
        match self.choose(hand, &asked) {
            // Only a full history refuses a poll of an empty hand.
            Told::Hear(_) => self.refused(Refusal::LogFull),
            told => told,
        }
    }

    /// The running task helps: `ForkJoinTask.helpQuiesce` for one task. Precondition: the hand fits.
    pub(crate) fn help(&mut self, hand: &mut Hand<B>) -> Told<B>
        requires free { self.old.stuck ≡ false }
        requires fits { Fits self.old.past hand.old }
        ensures helps { Helps self.old hand.old result self.new hand.new }
        ensures fits { Fits self.new.past hand.new }
    {
        let r = hand.take_word();
        let asked = Step::Help {
            w: hand.worker(),
            r,
        };
        self.choose(hand, &asked)
    }

    /// One try of the running task to join another one: `ForkJoinTask.join`. Precondition: the hand fits.
    ///
    /// If that task is done, it hears how; a result is taken out, and the task released as soon as it can be. If not, the worker takes its
    /// choice of another task.
    #[inline(always)]
    pub(crate) fn join(&mut self, hand: &mut Hand<B>, t: Serial) -> Told<B>
        requires free { self.old.stuck ≡ false }
        requires fits { Fits self.old.past hand.old }
        ensures joins { Joins self.old hand.old t result self.new hand.new }
        ensures right { ToldRight B.right result }
        ensures fits { Fits self.new.past hand.new }
    {
        let r = hand.take_word();
        let asked = Step::Join {
            w: hand.worker(),
            t,
            r,
        };
        match self.choose(hand, &asked) {
            Told::Hear(heard) => match heard {
                Heard::Bare => match self.take_and_release(t) {
                    Some(kept) => {
                        let (key, out) = kept.into_parts();
                        Told::Hear(Heard::Got(key, out))
                    }
                    None => Told::Hear(Heard::Bare),
                },
                heard => Told::Hear(heard),
            },
            told => told,
        }
    }
}
