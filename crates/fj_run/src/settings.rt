ghost use Rattle.std.specs.Prelude.{◌≡◌, ◌↔◌, ◌≤◌, IsOk, IfOk, OnErr, Err};
ghost use Rattle.fj_lane.specs.declared.new_lane.TheConstants.{MAX_CAPACITY};
ghost use Rattle.fj_rules.specs.declared.limits.TheConstants.{MAX_EVENTS, MAX_TASKS};
ghost use Rattle.fj_rules.specs.Bounds.{IsWithin, bounds};

use fj_lane::MAX_CAPACITY;
use fj_rules::{Limits, MAX_EVENTS, MAX_TASKS, MAX_WORKERS, Mode, Refusal};
use std::thread;
use std::thread::Threads;

/// The settings of a pool: its number of workers, and defaults for all else.
///
/// The defaults: workers take their newest tasks first (`Joining`); one submitter; 65,536 bodies in its life, 4,096 tasks and 1,048,576
/// events, which are the maxima; scan words from 0 on.
#[derive(Clone, Copy, Debug, PartialEq)]
pub struct Settings {
    mode: Mode,
    limits: Limits,
    lane_capacity: u32,
    start: u32,
}

impl Settings {
    /// With `workers` workers, 1 to 32; `BadLimits` for any other number. `new ForkJoinPool(parallelism)`.
    pub fn workers(workers: u32) -> Result<Settings, Refusal>
        ensures valid { IsOk result ↔ IsWithin workers 1 MAX_TASKS MAX_EVENTS }
        ensures limits { IfOk result (λ s. s.limits ≡ bounds workers 1 MAX_TASKS MAX_EVENTS) }
        ensures mode { IfOk result (λ s. (s.mode ≡ Mode.Joining) × (s.start ≡ 0)) }
        ensures err { OnErr result (result ≡ Err Refusal.BadLimits) }
    {
        Ok(Settings::with_limits(Limits::new(workers, 1, MAX_TASKS, MAX_EVENTS)?))
    }

    /// With as many workers as this process has processors, at most 32; with one if the system does not say. `new ForkJoinPool()`.
    pub fn available<R: Threads>(rt: &R) -> Settings
        ensures limits { result.limits ≡ bounds result.limits.workers 1 MAX_TASKS MAX_EVENTS }
        ensures mode { (result.mode ≡ Mode.Joining) × (result.start ≡ 0) }
    {
        let processors = match thread::available_parallelism(rt) {
            Ok(processors) => processors.get(),
            Err(_) => 1,
        };
        let Ok(settings) = Settings::workers(processors.min(MAX_WORKERS as usize) as u32) else {
            unreachable!()
        };
        settings
    }

    /// With these limits, and defaults for all else.
    pub fn with_limits(limits: Limits) -> Settings
        ensures limits { result.limits ≡ limits }
        ensures mode { (result.mode ≡ Mode.Joining) × (result.start ≡ 0) }
    {
        Settings {
            mode: Mode::Joining,
            limits,
            lane_capacity: MAX_CAPACITY,
            start: 0,
        }
    }

    /// The same in this mode: in `Async` workers take their oldest tasks first.
    pub fn in_mode(self, mode: Mode) -> Settings
        ensures mode { result.mode ≡ mode }
        ensures others { (result.limits ≡ self.limits) × (result.lane_capacity ≡ self.lane_capacity) × (result.start ≡ self.start) }
    {
        Settings { mode, ..self }
    }

    /// The same with this scan word of worker 0, and one more for each further worker: it says where a worker looks for work first.
    pub fn starting_at(self, start: u32) -> Settings
        ensures start { result.start ≡ start }
        ensures others { (result.limits ≡ self.limits) × (result.lane_capacity ≡ self.lane_capacity) × (result.mode ≡ self.mode) }
    {
        Settings { start, ..self }
    }

    /// The same, but each submitter takes `bodies` bodies in its life, 1 to 65,536; `BadLimits` for any other number.
    pub fn with_lane_capacity(self, bodies: u32) -> Result<Settings, Refusal>
        ensures valid { IsOk result ↔ ((1 ≤ bodies) × (bodies ≤ MAX_CAPACITY)) }
        ensures capacity { IfOk result (λ s. s.lane_capacity ≡ bodies) }
        ensures others { IfOk result (λ s. (s.limits ≡ self.limits) × (s.mode ≡ self.mode) × (s.start ≡ self.start)) }
        ensures err { OnErr result (result ≡ Err Refusal.BadLimits) }
    {
        if bodies == 0 || bodies > MAX_CAPACITY {
            return Err(Refusal::BadLimits);
        }
        Ok(Settings {
            lane_capacity: bodies,
            ..self
        })
    }

    /// The same for a single body.
    pub(crate) fn for_one(self) -> Settings
        ensures others { (result.limits ≡ self.limits) × (result.mode ≡ self.mode) × (result.start ≡ self.start) }
    {
        Settings {
            lane_capacity: 1,
            ..self
        }
    }

    /// In which order workers take their own tasks.
    pub fn mode(&self) -> Mode
        ensures { result ≡ self.now.mode }
    {
        self.mode
    }

    /// How large the pool may grow.
    pub fn limits(&self) -> Limits
        ensures { result ≡ self.now.limits }
    {
        self.limits
    }

    /// How many bodies each submitter takes in its life.
    pub fn lane_capacity(&self) -> u32
        ensures { result ≡ self.now.lane_capacity }
    {
        self.lane_capacity
    }

    /// The scan word of worker 0.
    pub fn start(&self) -> u32
        ensures { result ≡ self.now.start }
    {
        self.start
    }
}
