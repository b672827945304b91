use crate::consumer::Consumer;
use crate::feeding::Feeding;
use crate::pool_record::of_record;
use crate::producer::Producer;
use crate::window::Window;
use fj_run::{Body, Played, Record, Refusal, Settings, Turnstile, with_pool};
use std::alloc::Global;
use std::sync::Wait;
use std::thread::Threads;

/// The end of a service whose producer has ended.
#[derive(Drop)]
pub struct Served<P, C> {
    /// How many bodies came; the outcome of each was reported.
    pub bodies: u64,
    /// How many pools served, one after another.
    pub pools: u64,
    /// Where the bodies came from.
    pub producer: P,
    /// Where their outcomes went.
    pub consumer: C,
}

/// A service that could not go on.
#[derive(Drop)]
pub struct Unserved<B: Body, P, C> {
    /// Why.
    pub refusal: Refusal,
    /// How many bodies were reported: all that were submitted.
    pub bodies: u64,
    /// A body that came, but was not submitted.
    pub next: Option<B>,
    /// What is left of the last pool: what its lanes still hold, and outcomes that were not delivered.
    pub record: Option<Record<B>>,
    /// Where the bodies came from.
    pub producer: P,
    /// Where their outcomes went.
    pub consumer: C,
}

/// Serves until the producer ends: submits its bodies in order, at most a window of them at a time, and reports the outcome of each to the
/// consumer. When all lanes of a pool are spent it is drained and shut down, and the next pool is opened. In Java, a `ForkJoinPool` behind
/// a bounded queue.
///
/// `OutOfMemory` if an allocation fails or a thread cannot be started; what was submitted is served before. `LogFull` if a pool got stuck,
/// since a job had more events than its history has room for. `LaneSpent` after 2^64 - 1 bodies.
pub fn serve<
    B: Body + Send,
    P: Producer<B> + Drop,
    C: Consumer<B> + Drop,
    T: Turnstile + Sync,
    R: Threads + Wait + Sync,
>(
    rt: &R,
    alloc: Global,
    settings: Settings,
    window: Window,
    producer: P,
    consumer: C,
    turnstile: &T,
) -> Result<Served<P, C>, Unserved<B, P, C>>
where
    B::Key: Send,
    B::Out: Send,
{
    let mut feeding = Feeding::new(alloc, window, producer, consumer);
    let serving = Serving {
        rt,
        alloc,
        settings,
        turnstile,
    };
    let mut pools: u64 = 0;
    for _ in rt.forever() {
        let (player, is_done) = serving.serve_by_one(feeding)?;
        pools = pools.saturating_add(1);
        if is_done {
            return Ok(Served {
                bodies: player.told,
                pools,
                producer: player.producer,
                consumer: player.consumer,
            });
        }
        feeding = player;
    }
    unreachable!()
}

/// How the pools of a service are run.
#[derive(Drop)]
struct Serving<'r, 't, R, T> {
    rt: &'r R,
    alloc: Global,
    settings: Settings,
    turnstile: &'t T,
}

impl<R: Threads + Wait + Sync, T: Turnstile + Sync> Serving<'_, '_, R, T> {
    /// One pool serves until its lanes are spent, or the producer ends. True if all is done.
    fn serve_by_one<B: Body + Send, P: Producer<B> + Drop, C: Consumer<B> + Drop>(
        &self,
        feeding: Feeding<B, P, C>,
    ) -> Result<(Feeding<B, P, C>, bool), Unserved<B, P, C>>
    where
        B::Key: Send,
        B::Out: Send,
    {
        match with_pool(self.rt, self.alloc, self.settings, feeding, self.turnstile) {
            Ok(played) => {
                let Played {
                    mut player,
                    out: is_done,
                    record,
                } = played;
                match player.refusal {
                    Some(refusal) => Err(stop(player, refusal, Some(record))),
                    None => {
                        player.consumer.take_record(of_record(record));
                        Ok((player, is_done))
                    }
                }
            }
            Err((refusal, player)) => Err(stop(player, refusal, None)),
        }
    }
}

/// What a service that cannot go on returns.
fn stop<B: Body, P: Drop, C: Drop>(
    feeding: Feeding<B, P, C>,
    refusal: Refusal,
    record: Option<Record<B>>,
) -> Unserved<B, P, C> {
    Unserved {
        refusal,
        bodies: feeding.told,
        next: feeding.next,
        record,
        producer: feeding.producer,
        consumer: feeding.consumer,
    }
}
