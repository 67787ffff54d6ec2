//! Instances of modules that share one linear memory, and the turns that they are given.

ghost use Rattle.std.specs.Prelude.{◌≡◌, ◌≢◌, List, not, is_some, ◌↔◌, ◌+◌, ◌-◌, ◌*◌, ◌<◌, ◌≤◌, ◌^◌, ◌⊎◌, ℕ, [], ◌∷◌, ◌++◌, None, Err, length, map, false, true, Some, IfErr, IfOk, IfSome, IsSome, slice_get};
ghost use Rattle.std.specs.List.{list_any};
ghost use Rattle.std.specs.Vec.{vec_capacity};
ghost use Rattle.qw_linear.specs.Memory.{most_pages, page};
ghost use Rattle.std.specs.List.{AllByRecursion};
ghost use Rattle.qw_bench.specs.Standing.{AreLimits, limit_pages};

mod start;

use crate::bench::start::seats_over_tables;
use crate::pool::Pool;
use qw_columns::pages_needed;
use qw_csv::Loaded;
use qw_linear::linear::{Linear, MAX_PAGES, PAGE};
use qw_machine::machine::Instance;
use qw_machine::stepped::Stepped;
use qw_map::layout::{Layout, Placed};
use qw_types::NoMemory;
use qw_types::code::Code;
use qw_types::schema::MAX_TABLES;
use qw_valid::valid::ValidModule;
use std::alloc::Global;
use std::marker::Model;
use thiserror::Error;

/// How much an instance may use.
#[derive(Clone, Copy, Debug, PartialEq, Eq)]
pub struct Limits {
    /// How many pages it may hold, from 1 to [`MAX_PAGES`].
    pub pages: u32,
    /// How many instructions it may run, from 1 to [`MAX_STEPS`].
    pub steps: u64,
}

/// The greatest limit of instructions.
pub const MAX_STEPS: u64 = 999_999_999_999_999_999;

/// The most jobs of a bench.
pub const MAX_JOBS: usize = 64;

/// Why there is no bench.
#[derive(Clone, Copy, Debug, PartialEq, Eq, Error)]
pub enum BenchFault {
    /// The pages of the columns and all that the instances may hold, which are more than [`MAX_PAGES`].
    #[error("total pages {need}")]
    TotalPages { need: u64 },
    #[error("want of memory")]
    NoMemory,
}

impl From<NoMemory> for BenchFault {
    ghost use Rattle.qw_bench.specs.declared.bench.BenchFault.TheVariants.{NoMemory};

    ghost from_gives = { λ _ fault. fault ≡ NoMemory };

    fn from(_fault: NoMemory) -> Self {
        BenchFault::NoMemory
    }
}

/// How an instance ended.
#[derive(Clone, Copy, Debug, PartialEq, Eq)]
pub enum Ended {
    /// Its `run` returned.
    Done,
    /// It raised an exception of SQL.
    Raised(Code),
    /// With so many pages held, it asked for so many more than its limit of pages lets it.
    Pages { held: u32, asked: u32, limit: u32 },
    /// It ran as many instructions as its limit says.
    Steps { limit: u64 },
}

/// A module and the layout that it behaves with.
#[derive(Drop)]
pub struct Job {
    valid: ValidModule,
    layout: Layout,
}

impl Model for Job {
    ghost use Rattle.qw_bench.specs.Bench.{Program};

    ghost Value = { Program };

    ghost use Rattle.qw_map.specs.Behaving.{BehavesWith};

    ghost view = { λ job. record { layout = job.layout; module' = job.valid } };

    ghost invariant = { λ job. BehavesWith job.layout job.valid };
}

impl Job {
    ghost use Rattle.qw_map.specs.Behaving.{BehavesWith};

    /// The module, with a layout that it behaves with.
    pub fn new(valid: ValidModule, layout: Layout) -> Self
        requires { BehavesWith layout valid }
        ensures { result ≡ record { layout = layout; module' = valid } }
    {
        Job { valid, layout }
    }
}

/// Pages that an instance was granted: the number of the first one in the memory, and how many they are.
#[derive(Clone, Copy, PartialEq, Eq)]
struct Grant {
    at: u32,
    pages: u32,
}

/// An instance, with what it may use and how far it has come.
#[derive(Drop)]
struct Seat {
    instance: Instance,
    layout: Layout,
    /// Where the columns of the layout stand.
    placed: Vec<Placed>,
    /// The address of its descriptor, where its first page begins.
    descriptor: u64,
    limits: Limits,
    /// What it was granted, in order. There is room for all that it may still be granted.
    granted: Vec<Grant>,
    /// How many pages it holds.
    held: u32,
    /// How many pages its last request was for that was refused.
    refused: Option<u32>,
    /// How many instructions it has run.
    ran: u64,
    ended: Option<Ended>,
    /// Whether it was done, and its pages were made free then.
    released: bool,
}

impl Seat {
    ghost use Rattle.qw_map.specs.Turns.{IsWhole, given, is_back, steps_of};
    ghost use Rattle.qw_map.specs.Free.{given_back};
    ghost use Rattle.qw_module.specs.Execution.{Config, Raised, Running};
    ghost use Rattle.qw_machine.specs.Instance.{AsksFor};
    ghost use Rattle.qw_bench.specs.Inner.Pools.{IsPool, common_of};
    ghost use Rattle.qw_bench.specs.Inner.Seats.{HasGrants, IsAnswered, IsEndOf, IsRaised, IsSeat, IsTold, StaysSeated, areas_of, common_with, counting, grants_of, instance_of, state_in, task_of};

    /// Runs the instance until it ends or has run `quantum` instructions. Answers how many it ran. Where it ends but by a return,
    /// its pages are free then.
    fn turn(&mut self, pool: &mut Pool, quantum: u64) -> u64
        requires whole { IsWhole (instance_of self.old) }
        requires told { IsTold (instance_of self.old) (common_of pool.old) }
        requires seat { IsSeat (length pool.old.free.items) self.old }
        requires pool { IsPool pool.old }
        requires room { length pool.old.memory.octets + (self.old.limits.pages - self.old.held) * page ≤ pool.old.memory.reserved * page }
        ensures turned { (instance_of self.new, common_of pool.new) ≡ steps_of quantum (instance_of self.old) (common_of pool.old) }
        ensures task { task_of self.new ≡ task_of self.old }
        ensures seat { IsSeat (length pool.new.free.items) self.new }
        ensures pool { IsPool pool.new }
        ensures longer { length pool.old.free.items ≤ length pool.new.free.items }
        ensures asks { length pool.new.memory.octets + (self.new.limits.pages - self.new.held) * page
            ≤ length pool.old.memory.octets + (self.old.limits.pages - self.old.held) * page }
        ensures reserved { pool.new.memory.reserved ≡ pool.old.memory.reserved }
        ensures counted { self.new.ran ≡ self.old.ran + result }
        ensures over { IsSome self.old.ended → result ≡ 0 }
        ensures progress { self.old.ended ≡ None → 1 ≤ quantum → 1 ≤ result }
    {
        if self.ended.is_some() {
            return 0;
        }
        let taken = self.run(pool, quantum.min(self.limits.steps - self.ran));
        self.count(taken);
        self.settle(pool);
        taken
    }

    /// Executes up to `budget` instructions, and answers how many. They aren't counted yet, and no pages are given back.
    fn run(&mut self, pool: &mut Pool, budget: u64) -> u64
        requires runs { IsEndOf self.old (state_in self.old) None }
        requires unended { self.old.ended ≡ None }
        requires below { self.old.ran < self.old.limits.steps }
        requires steps { self.old.ran + budget ≤ self.old.limits.steps }
        requires told { IsTold (counting self.old 0) (common_of pool.old) }
        requires seat { IsSeat (length pool.old.free.items) self.old }
        requires pool { IsPool pool.old }
        requires room { length pool.old.memory.octets + (self.old.limits.pages - self.old.held) * page ≤ pool.old.memory.reserved * page }
        ensures ran { (counting self.new result, common_with (counting self.new result) pool.new)
            ≡ steps_of budget (counting self.old 0) (common_of pool.old) }
        ensures seated { StaysSeated self.old self.new }
        ensures program { self.new.instance.program ≡ self.old.instance.program }
        ensures end { IsEndOf self.new (state_in self.new) self.new.ended }
        ensures seat { IsSeat (length pool.new.free.items) self.new }
        ensures pool { IsPool pool.new }
        ensures longer { length pool.old.free.items ≤ length pool.new.free.items }
        ensures asks { length pool.new.memory.octets + (self.new.limits.pages - self.new.held) * page
            ≤ length pool.old.memory.octets + (self.old.limits.pages - self.old.held) * page }
        ensures reserved { pool.new.memory.reserved ≡ pool.old.memory.reserved }
        ensures count { self.new.ended ≡ None → result ≡ budget }
        ensures within { result ≤ budget }
        ensures progress { 1 ≤ budget → 1 ≤ result }
    {
        let mut taken = 0;
        while taken < budget {
            let spare = self.limits.pages - self.held;
            let run = self.instance.run(&mut pool.memory, spare, budget - taken);
            taken += run.steps;
            match run.last {
                Stepped::Ran => {}
                Stepped::Grew { at, pages } => {
                    pool.note_growth(pages);
                    self.note_grant(at, pages);
                }
                Stepped::Refused { pages } => self.refused = Some(pages),
                Stepped::Asked { pages } => {
                    self.answer(pool, pages);
                    taken += 1;
                }
                Stepped::Returned => {
                    self.ended = Some(Ended::Done);
                    return taken;
                }
                Stepped::Raised(code) => {
                    self.ended = Some(self.end_of_raise(code));
                    return taken;
                }
                Stepped::Trapped(_) => unreachable!(),
            }
        }
        taken
    }

    /// Answers a request for so many pages that the instance made of its host: it is granted exactly where it stays within the
    /// limit.
    fn answer(&mut self, pool: &mut Pool, pages: u32)
        requires asked { self.old.instance.asked ≡ Some pages }
        requires grants { HasGrants (length pool.old.free.items) self.old }
        requires pool { IsPool pool.old }
        requires room { length pool.old.memory.octets + (self.old.limits.pages - self.old.held) * page ≤ pool.old.memory.reserved * page }
        ensures answered { (c : Config) → state_in self.old ≡ Running c → AsksFor pages c
            → IsAnswered pages self.old (common_of pool.old) self.new (common_of pool.new) c }
        ensures seat { IsSeat (length pool.new.free.items) self.new }
        ensures seated { StaysSeated self.old self.new }
        ensures ended { self.new.ended ≡ self.old.ended }
        ensures program { self.new.instance.program ≡ self.old.instance.program }
        ensures pool { IsPool pool.new }
        ensures longer { length pool.old.free.items ≤ length pool.new.free.items }
        ensures asks { length pool.new.memory.octets + (self.new.limits.pages - self.new.held) * page
            ≤ length pool.old.memory.octets + (self.old.limits.pages - self.old.held) * page }
        ensures reserved { pool.new.memory.reserved ≡ pool.old.memory.reserved }
    {
        if pages > self.limits.pages - self.held {
            self.refused = Some(pages);
            self.instance.give(None);
        } else {
            let first = pool.grant(pages);
            self.note_grant(first, pages);
            self.instance.give(Some(first));
        }
    }

    /// Notes that so many pages from one on were granted.
    fn note_grant(&mut self, at: u32, pages: u32)
        requires reserved { pages ≢ 0 → length self.old.granted.items < vec_capacity self.old.granted }
        requires fits { self.old.held + pages < 2 ^ 32 }
        ensures seat { self.new ≡ record self.old { granted = self.new.granted; held = self.old.held + pages } }
        ensures granted { self.new.granted.items ≡ self.old.granted.items ++ grants_of at pages }
        ensures capacity { vec_capacity self.new.granted ≡ vec_capacity self.old.granted }
    {
        if pages == 0 {
            return;
        }
        self.granted.push_reserved(Grant { at, pages });
        self.held += pages;
    }

    /// The end at a code that was raised: an exception, or the last refused request, which was past the limit.
    fn end_of_raise(&self, code: u32) -> Ended
        requires { IsRaised self.now.refused code }
        ensures { IsEndOf self.now (Raised code) (Some result) }
    {
        match code {
            1 => Ended::Raised(Code::DivZero),
            2 => Ended::Raised(Code::OutOfRange),
            _ => Ended::Pages {
                held: self.held,
                asked: self.refused.unwrap(),
                limit: self.limits.pages,
            },
        }
    }

    /// Counts so many instructions as run, and notes the end at the limit of them.
    fn count(&mut self, taken: u64)
        requires steps { self.old.ran + taken ≤ self.old.limits.steps }
        requires end { IsEndOf self.old (state_in self.old) self.old.ended }
        ensures counted { instance_of self.new ≡ counting self.old taken }
        ensures seat { self.new ≡ record self.old { ran = self.old.ran + taken; ended = self.new.ended } }
    {
        let limit = self.limits.steps;
        self.ran += taken;
        if self.ended.is_none() && self.ran == limit {
            self.ended = Some(Ended::Steps { limit });
        }
    }

    /// Whether its pages aren't its own any more.
    fn is_back(&self) -> bool
        ensures { result ≡ is_back (instance_of self.now) }
    {
        match self.ended {
            None => false,
            Some(Ended::Done) => self.released,
            Some(_) => true,
        }
    }

    /// Makes all its pages free, where they aren't its own any more.
    fn settle(&self, pool: &mut Pool)
        requires seat { IsSeat (length pool.old.free.items) self.now }
        requires pool { IsPool pool.old }
        ensures common { common_of pool.new ≡ common_with (instance_of self.now) pool.old }
        ensures pool { IsPool pool.new }
        ensures memory { pool.new.memory ≡ pool.old.memory }
    {
        if self.is_back() {
            self.give_back(pool);
        }
    }

    /// Makes all its pages free.
    fn give_back(&self, pool: &mut Pool)
        requires seat { IsSeat (length pool.old.free.items) self.now }
        requires pool { IsPool pool.old }
        ensures free { pool.new.free.items ≡ given_back (areas_of self.now) pool.old.free.items }
        ensures pool { IsPool pool.new }
        ensures memory { pool.new.memory ≡ pool.old.memory }
    {
        pool.take_back((self.descriptor / PAGE as u64) as u32, 1);
        for grant in self.granted.as_slice() {
            pool.take_back(grant.at, grant.pages);
        }
    }

    /// Makes all pages of an instance that is done free.
    fn release(&mut self, pool: &mut Pool)
        requires seat { IsSeat (length pool.old.free.items) self.old }
        requires pool { IsPool pool.old }
        ensures released { (instance_of self.new, common_of pool.new) ≡ given (instance_of self.old) (common_of pool.old) }
        ensures seat { self.new ≡ record self.old { released = true } }
        ensures pool { IsPool pool.new }
        ensures memory { pool.new.memory ≡ pool.old.memory }
    {
        self.released = true;
        self.give_back(pool);
    }
}

/// How many pages instances with these limits may hold together.
fn limit_pages(limits: &[Limits]) -> u64
    requires few { length limits.now ≤ MAX_JOBS }
    requires limits { AllByRecursion AreLimits limits.now }
    ensures pages { result ≡ limit_pages limits.now }
    ensures limit { result ≤ 4_194_240 }
{
    let mut pages = 0;
    for one in limits {
        pages += u64::from(one.pages);
    }
    pages
}

/// Whether the instance of one of the seats hasn't ended.
fn one_runs(seats: &[Seat]) -> bool
    ensures { result ≡ list_any (λ seat. not (is_some seat.ended)) seats.now }
{
    seats.iter().any(|seat| seat.ended.is_none())
}

/// Instances over one memory, which holds the columns that they read.
#[derive(Drop)]
pub struct Bench {
    pool: Pool,
    seats: Vec<Seat>,
}

impl Model for Bench {
    ghost use Rattle.qw_bench.specs.Standing.{Standing};
    ghost use Rattle.qw_bench.specs.Inner.StandingCode.{standing_code};

    ghost Value = { Standing };

    ghost coded = { standing_code };

    ghost use Rattle.qw_bench.specs.Inner.Seats.{AreSeats, standing_of};

    ghost view = { λ b. standing_of b.pool b.seats.items };

    ghost invariant = { λ b. AreSeats b.pool b.seats.items };
}

impl Bench {
    ghost use Rattle.std.specs.List.{AllByRecursion};
    ghost use Rattle.qw_map.specs.Columns.{column_pages};
    ghost use Rattle.qw_map.specs.Turns.{EachInstance, Act, Done, turn, release, acted, turns};
    ghost use Rattle.qw_bench.specs.Bench.{AreRounds, IsColumnIn, IsStart, Program, round};
    ghost use Rattle.qw_bench.specs.Inner.Rounds.{steps_left};
    ghost use Rattle.qw_bench.specs.Standing.{AreLimits, AreTasksOf, IsBench, end_of, total_pages};
    ghost use Rattle.qw_bench.specs.Bench.{end_in, held_in, ran_in, released_in};

    /// A bench with an instance of each job, in order, over tables, which have the columns that the
    /// jobs' layouts use. All columns of the tables stand in its memory, in the first pages, and the
    /// instances' first pages are those behind them, in order. The tables are freed column by column
    /// as the memory grows to hold them.
    ///
    /// # Errors
    ///
    /// `TotalPages` exactly where the pages of the columns and of all limits together are more than
    /// [`MAX_PAGES`]; else `NoMemory` where the bench does not fit memory. The jobs are dropped.
    pub fn new(
        alloc: Global,
        loaded: Vec<Loaded>,
        jobs: Vec<Job>,
        limits: &[Limits],
    ) -> Result<Self, BenchFault>
        requires tables { length loaded.items ≤ MAX_TABLES }
        requires jobs { length jobs.items ≤ MAX_JOBS }
        requires many { length limits.now ≡ length jobs.items }
        requires limits { AllByRecursion AreLimits limits.now }
        requires columns { AllByRecursion (λ (program : Program). AllByRecursion (IsColumnIn loaded.items) program.layout.columns) jobs.items }
        ensures total_pages { (need : ℕ) → (result ≡ Err (BenchFault.TotalPages need))
            ↔ ((need ≡ total_pages loaded.items limits.now) × (most_pages < need)) }
        ensures within { total_pages loaded.items limits.now ≤ most_pages → IfErr result (λ fault. fault ≡ BenchFault.NoMemory) }
        ensures tasks { IfOk result (λ bench. AreTasksOf jobs.items limits.now bench.tasks) }
        ensures start { IfOk result (λ bench. IsStart loaded.items bench.tasks bench.shared) }
        ensures reserved { IfOk result (λ bench. bench.reserved ≡ total_pages loaded.items limits.now) }
    {
        let need = pages_needed(loaded.as_slice()) + limit_pages(limits);
        if need > u64::from(MAX_PAGES) {
            return Err(BenchFault::TotalPages { need });
        }
        Ok(Bench::begin(alloc, loaded, jobs, limits, need as u32)?)
    }

    /// The bench of instances whose pages fit a memory beside the columns.
    fn begin(
        alloc: Global,
        loaded: Vec<Loaded>,
        jobs: Vec<Job>,
        limits: &[Limits],
        pages: u32,
    ) -> Result<Self, NoMemory>
        requires tables { length loaded.items ≤ MAX_TABLES }
        requires jobs { length jobs.items ≤ MAX_JOBS }
        requires many { length limits.now ≡ length jobs.items }
        requires limits { AllByRecursion AreLimits limits.now }
        requires columns { AllByRecursion (λ (program : Program). AllByRecursion (IsColumnIn loaded.items) program.layout.columns) jobs.items }
        requires pages { (pages ≡ total_pages loaded.items limits.now) × (pages ≤ MAX_PAGES) }
        ensures tasks { IfOk result (λ bench. AreTasksOf jobs.items limits.now bench.tasks) }
        ensures start { IfOk result (λ bench. IsStart loaded.items bench.tasks bench.shared) }
        ensures reserved { IfOk result (λ bench. bench.reserved ≡ pages) }
    {
        let flags = Vec::with_capacity(alloc, pages as usize)?;
        let mut memory = Linear::new(alloc, pages)?;
        let seats = seats_over_tables(alloc, loaded, jobs, limits, &mut memory)?;
        let pool = Pool::new(memory, flags);
        Ok(Bench { pool, seats })
    }

    /// Gives an instance a turn: it runs until it ends or has run `quantum` instructions. Answers how many
    /// it ran.
    pub fn turn(&mut self, i: usize, quantum: u64) -> u64
        requires there { i < length self.old.shared.instances }
        requires some { 1 ≤ quantum }
        ensures turn { self.new.shared ≡ acted self.old.shared (turn i quantum) }
        ensures tasks { self.new.tasks ≡ self.old.tasks }
        ensures reserved { self.new.reserved ≡ self.old.reserved }
        ensures counted { ran_in self.new.shared i ≡ ran_in self.old.shared i + result }
        ensures none { (result ≡ 0) ↔ IsSome (end_in self.old.shared i) }
    {
        let seat = &mut self.seats[i];
        seat.turn(&mut self.pool, quantum)
    }

    /// Makes all pages of an instance that is done free, for what others ask from then on. Its rows can't be read any more. It
    /// takes no memory.
    pub fn release(&mut self, i: usize)
        requires there { i < length self.old.shared.instances }
        requires done { end_in self.old.shared i ≡ Some Done }
        requires unreleased { released_in self.old.shared i ≡ false }
        ensures release { self.new.shared ≡ acted self.old.shared (release i) }
        ensures tasks { self.new.tasks ≡ self.old.tasks }
        ensures reserved { self.new.reserved ≡ self.old.reserved }
    {
        let seat = &mut self.seats[i];
        seat.release(&mut self.pool);
    }

    /// Gives turns of `quantum` instructions to the instances that haven't ended, in order, round after
    /// round, until all have ended.
    pub fn run_all(&mut self, quantum: u64)
        requires { 1 ≤ quantum }
        ensures rounds { (acts : List Act) × AreRounds quantum acts self.old.shared
            × (self.new.shared ≡ turns acts self.old.shared) }
        ensures ended { EachInstance (λ instance. IsSome instance.end) self.new.shared }
        ensures tasks { self.new.tasks ≡ self.old.tasks }
        ensures reserved { self.new.reserved ≡ self.old.reserved }
    {
        while self.runs() {
            self.round(quantum);
        }
    }

    /// Whether an instance hasn't ended.
    fn runs(&self) -> bool
        ensures { result ≡ list_any (λ instance. not (is_some instance.end)) self.now.shared.instances }
    {
        one_runs(self.seats.as_slice())
    }

    /// One round of turns.
    fn round(&mut self, quantum: u64)
        requires { 1 ≤ quantum }
        ensures turns { self.new.shared ≡ turns (round quantum self.old.shared) self.old.shared }
        ensures tasks { self.new.tasks ≡ self.old.tasks }
        ensures reserved { self.new.reserved ≡ self.old.reserved }
        ensures falls { round quantum self.old.shared ≢ []
            → steps_left self.new.shared.instances < steps_left self.old.shared.instances }
    {
        for i in 0..self.len() {
            if self.ended(i).is_none() {
                self.turn(i, quantum);
            }
        }
    }

    /// How many instances there are.
    pub fn len(&self) -> usize
        ensures many { result ≡ length self.now.shared.instances }
        ensures kept { IsBench self.now }
    {
        self.seats.len()
    }

    /// How an instance ended, if it has.
    pub fn ended(&self, i: usize) -> Option<Ended>
        requires { i < length self.now.shared.instances }
        ensures { end_of result ≡ end_in self.now.shared i }
    {
        self.seats[i].ended
    }

    /// How many instructions an instance has run.
    pub fn steps(&self, i: usize) -> u64
        requires { i < length self.now.shared.instances }
        ensures { result ≡ ran_in self.now.shared i }
    {
        self.seats[i].ran
    }

    /// How many pages an instance holds.
    pub fn pages(&self, i: usize) -> u32
        requires { i < length self.now.shared.instances }
        ensures { result ≡ held_in self.now.shared i }
    {
        self.seats[i].held
    }

    /// Whether an instance that was done was released.
    pub fn released(&self, i: usize) -> bool
        requires { i < length self.now.shared.instances }
        ensures { result ≡ released_in self.now.shared i }
    {
        self.seats[i].released
    }

    /// The address of an instance's descriptor.
    pub fn descriptor(&self, i: usize) -> u64
        requires { i < length self.now.shared.instances }
        ensures { IfSome (slice_get self.now.tasks i) (λ task. result ≡ task.descriptor) }
    {
        self.seats[i].descriptor
    }

    /// What an instance reads and leaves.
    pub fn layout(&self, i: usize) -> &Layout
        requires { i < length self.now.shared.instances }
        ensures { IfSome (slice_get self.now.tasks i) (λ task. result.now ≡ task.program.layout) }
    {
        &self.seats[i].layout
    }

    /// The memory that the instances share.
    pub fn memory(&self) -> &Linear
        ensures memory { result.now ≡ record { octets = self.now.shared.common.memory; reserved = self.now.reserved } }
        ensures kept { IsBench self.now }
    {
        &self.pool.memory
    }
}
