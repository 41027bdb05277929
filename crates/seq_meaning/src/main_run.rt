//! The main program, an event at a time.

ghost use Rattle.std.specs.Prelude.{◌≡◌, ◌≢◌, ◌+◌, ◌<◌, ◌≤◌, ℕ, Err, IfOk, IfSome, List, Ok, OnOk, None, Some, false, length, slice_get, slice_set, suc, take};
ghost use Rattle.std.specs.Option.{option_map};
ghost use Rattle.liszt_base.specs.Limits.{print_limit};
ghost use Rattle.liszt_base.specs.MeshLists.{MeshLists};
ghost use Rattle.liszt_tree.specs.Tree.{Main};
ghost use Rattle.liszt_base.specs.Corners.{IsMesh};
ghost use Rattle.mesh_topology.specs.Elements.{corner_lists};
ghost use Rattle.phase_types.specs.Checked.{checked_program};
ghost use Rattle.phase_types.specs.Environments.{parts_of};
ghost use Rattle.phase_types.specs.declared.state.CheckedProgram.{CheckedProgram as Parts};
ghost use Rattle.kernel_eval.specs.Outcomes.{Computation, Done};
ghost use Rattle.resolved_code.specs.declared.items.ItemCode.{out-ItemCode};
ghost use Rattle.resolved_code.specs.declared.items.ItemCode.TheVariants as Code;
ghost use Rattle.seq_meaning.specs.MainRuns.{CanAdvance, CanDo, CanContinue, HasAdvanced, HasDoneItem, HasBegunRun, HasNext, HasOpened, HasPrinted, HasTakenTurn, IsAt, IsPreparedRun, KeepsShape, StandsAt, World, block_at, block_in, deepest, frames_left, nested, next_frame};
ghost use Rattle.seq_meaning.specs.RemainingEvents.{HasFewer, event_count, events_in, remaining_events};
ghost use Rattle.seq_meaning.specs.Internal.RunSteps.{CountsDown, HasDone, events_at};
ghost use Rattle.seq_meaning.specs.Runs.{Progress};

use crate::values::{main_trap, number, scalar_at, truth};
use code_eval::assigned;
use kernel_eval::zeros;
use liszt_base::{NoMemory, PRINT_LIMIT, Place, RunEnd, Trap, TrapKind};
use liszt_tree::How;
use phase_types::Checked;
use resolved_code::{BlockCode, ItemCode, NumberCode, TruthCode};
use sqlite_items::{Items, at};
use std::alloc::Global;

/// A block that is open: the index of its item, and whether the block in that item which is open is the one after `else`.
#[derive(Clone, Copy, Debug, PartialEq, Eq)]
pub struct Frame {
    pub index: usize,
    pub after_else: bool,
}

/// An event of the main program: a scope is opened or closed, a field is declared with its value, a comprehension is
/// reached, or the program is over.
#[derive(Clone, Copy, Debug, PartialEq, Eq)]
pub enum MainStep {
    Enter(u32),
    Leave(u32),
    Declare { field: u32, value: i64 },
    Comp(u32),
    Over(RunEnd),
}

/// A run of a main program: its scalars by their numbers, what it printed, the turns that remain, and the frames of
/// the open blocks, that of the outermost one first, of which there are `depth`.
#[derive(Debug, Drop)]
pub struct MainRun {
    pub scalars: Items<i64>,
    pub prints: Items<i64>,
    pub printed: usize,
    pub turns: u64,
    pub frames: Items<Frame>,
    pub depth: usize,
}

/// Makes room for a frame at a level, and gives the next level.
fn make_room(frames: &mut Items<Frame>, level: usize) -> Result<usize, NoMemory>
    requires { level ≤ length frames.old }
    ensures room { OnOk result (level < length frames.new) }
    ensures next { IfOk result (λ inner. inner ≡ level + 1) }
    ensures more { length frames.old ≤ length frames.new }
{
    if level < frames.len() {
        return Ok(level + 1);
    }
    frames.push(Frame {
        index: 0,
        after_else: false,
    })?;
    Ok(frames.len())
}

/// Makes room for the frames of a block at a level and of those in it.
#[cycle(reserve)]
fn reserve(frames: &mut Items<Frame>, items: &[ItemCode], level: usize) -> Result<(), NoMemory>
    requires { level ≤ length frames.old }
    ensures room { OnOk result (level + deepest items.now < length frames.new) }
    ensures more { length frames.old ≤ length frames.new }
{
    let inner = make_room(frames, level)?;
    for item in items {
        reserve_inner(frames, item, inner)?;
    }
    Ok(())
}

/// Makes room for the frames of the blocks of an item.
#[cycle(reserve)]
fn reserve_inner(frames: &mut Items<Frame>, item: &ItemCode, level: usize) -> Result<(), NoMemory>
    requires { level ≤ length frames.old }
    ensures room { OnOk result (level + nested item.now ≤ length frames.new) }
    ensures more { length frames.old ≤ length frames.new }
{
    match item {
        ItemCode::If { first, second, .. } => {
            reserve(frames, first.items.as_slice(), level)?;
            if let Some(second) = second {
                reserve(frames, second.items.as_slice(), level)?;
            }
        }
        ItemCode::While { body, .. } => reserve(frames, body.items.as_slice(), level)?,
        _ => {}
    }
    Ok(())
}

/// The frame at the next item of a block of so many items.
fn next_of(frame: Frame, count: usize) -> Frame
    requires { frame.index < count }
    ensures { result ≡ next_frame frame }
{
    Frame {
        index: frame.index + 1,
        after_else: frame.after_else,
    }
}

/// The block of an item that can be open, and whether the item is repeated after it.
fn inner_block(item: &ItemCode, after_else: bool) -> Option<(&BlockCode, bool)>
    ensures block { option_map (λ inner. record { block = inner.0.now; is_repeated = inner.1 })
        result ≡ block_in (out-ItemCode item.now) after_else }
    ensures deeper { IfSome result (λ inner. deepest inner.0.now.items < nested item.now) }
    ensures fewer { IfSome result (λ inner. events_in inner.0.now.items < event_count item.now) }
{
    match item {
        ItemCode::If { first, second, .. } => {
            if !after_else {
                return Some((first, false));
            }
            match second {
                Some(second) => Some((second, false)),
                None => None,
            }
        }
        ItemCode::While { body, .. } => Some((body, true)),
        ItemCode::Field { .. }
        | ItemCode::Var { .. }
        | ItemCode::Assign { .. }
        | ItemCode::For { .. }
        | ItemCode::Print { .. } => None,
    }
}

/// The block that is open in the item of a frame, and whether the item is repeated after it.
fn block_of(items: &[ItemCode], frame: Frame) -> Option<(&BlockCode, bool)>
    ensures block { option_map (λ inner. record { block = inner.0.now; is_repeated = inner.1 })
        result ≡ block_at items.now frame }
    ensures deeper { IfSome result (λ inner. deepest inner.0.now.items < deepest items.now) }
    ensures fewer { IfSome result (λ inner. events_in inner.0.now.items < events_in items.now) }
{
    inner_block(at(items, frame.index)?, frame.after_else)
}

impl MainRun {
    /// The frame at a level.
    fn frame(&self, level: usize) -> Frame
        requires { level < length self.now.frames }
        ensures { slice_get self.now.frames level ≡ Some result }
    {
        self.frames.as_slice()[level]
    }

    /// Continues with the next item of the block at a level.
    fn move_on(&mut self, level: usize, next: Frame)
        requires { level < length self.old.frames }
        ensures { self.new ≡ record self.old { frames = slice_set self.old.frames level next } }
    {
        self.frames.set(level, next);
    }

    /// Opens a block in the item of the block at a level.
    fn enter(&mut self, level: usize, frame: Frame, after_else: bool)
        requires { suc level < length self.old.frames }
        ensures { self.new ≡ record self.old {
          frames = slice_set (slice_set self.old.frames level
              (record { index = frame.index; after_else = after_else })) (suc level)
              (record { index = 0; after_else = false });
          depth = suc (suc level);
        } }
    {
        let _levels = self.frames.len();
        self.frames.set(
            level,
            Frame {
                index: frame.index,
                after_else,
            },
        );
        self.frames.set(
            level + 1,
            Frame {
                index: 0,
                after_else: false,
            },
        );
        self.depth = level + 2;
    }

    /// Assigns a scalar.
    fn assign(&mut self, scalar: u32, value: i64)
        requires { scalar < length self.old.scalars }
        ensures { self.new ≡ record self.old { scalars = slice_set self.old.scalars scalar value } }
    {
        self.scalars.set(scalar as usize, value);
    }

    /// Prints a number, unless the greatest number of prints is reached.
    fn print(&mut self, place: Place, value: i64) -> Result<(), Trap>
        requires { length self.old.prints ≡ print_limit }
        ensures { HasPrinted place value result self.old self.new }
    {
        if self.printed >= PRINT_LIMIT {
            return Err(main_trap(TrapKind::Prints, place));
        }
        self.prints.set(self.printed, value);
        self.printed += 1;
        Ok(())
    }

    /// Takes a turn of a `while`, if one remains.
    fn take_turn(&mut self, place: Place) -> Result<(), Trap>
        ensures { HasTakenTurn place result self.old self.new }
    {
        if self.turns == 0 {
            return Err(main_trap(TrapKind::Spent, place));
        }
        self.turns -= 1;
        Ok(())
    }

    /// Declares a field.
    fn declare(
        &mut self,
        items: &[ItemCode],
        level: usize,
        next: Frame,
        field: u32,
        init: &NumberCode,
    ) -> Result<Option<MainStep>, Trap>
        requires { CanDo self.old level items.now next (Code.Field field init.now) }
        ensures { HasDone level items.now next result self.old self.new }
    {
        let value = number(self.scalars.as_slice(), init)?;
        self.move_on(level, next);
        Ok(Some(MainStep::Declare { field, value }))
    }

    /// Declares a scalar.
    fn declare_scalar(
        &mut self,
        items: &[ItemCode],
        level: usize,
        next: Frame,
        scalar: u32,
        init: &NumberCode,
    ) -> Result<Option<MainStep>, Trap>
        requires { CanDo self.old level items.now next (Code.Var scalar init.now) }
        ensures { HasDone level items.now next result self.old self.new }
    {
        let value = number(self.scalars.as_slice(), init)?;
        self.assign(scalar, value);
        self.move_on(level, next);
        Ok(None)
    }

    /// Assigns a scalar the value of an expression.
    fn assign_value(
        &mut self,
        items: &[ItemCode],
        level: usize,
        next: Frame,
        scalar: u32,
        how: How,
        value: &NumberCode,
    ) -> Result<Option<MainStep>, Trap>
        requires { CanDo self.old level items.now next (Code.Assign scalar how value.now) }
        ensures { HasDone level items.now next result self.old self.new }
    {
        let n = number(self.scalars.as_slice(), value)?;
        let old = scalar_at(self.scalars.as_slice(), scalar);
        self.assign(scalar, assigned(how, old, n));
        self.move_on(level, next);
        Ok(None)
    }

    /// Prints the value of an expression.
    fn print_value(
        &mut self,
        items: &[ItemCode],
        level: usize,
        next: Frame,
        place: Place,
        value: &NumberCode,
    ) -> Result<Option<MainStep>, Trap>
        requires { CanDo self.old level items.now next (Code.Print place value.now) }
        ensures { HasDone level items.now next result self.old self.new }
    {
        let n = number(self.scalars.as_slice(), value)?;
        self.print(place, n)?;
        self.move_on(level, next);
        Ok(None)
    }

    /// Opens a block of an `if`, or continues after it.
    fn choose(
        &mut self,
        items: &[ItemCode],
        level: usize,
        next: Frame,
        test: &TruthCode,
        first: &BlockCode,
        second: &Option<BlockCode>,
    ) -> Result<Option<MainStep>, Trap>
        requires { CanDo self.old level items.now next (Code.If test.now first.now second.now) }
        ensures { HasDone level items.now next result self.old self.new }
    {
        let frame = self.frame(level);
        if truth(self.scalars.as_slice(), test)? {
            self.enter(level, frame, false);
            return Ok(Some(MainStep::Enter(first.scope)));
        }
        match second {
            Some(block) => {
                self.enter(level, frame, true);
                Ok(Some(MainStep::Enter(block.scope)))
            }
            None => {
                self.move_on(level, next);
                Ok(None)
            }
        }
    }

    /// Opens the body of a `while` for a turn, or continues after it.
    fn repeat(
        &mut self,
        items: &[ItemCode],
        level: usize,
        next: Frame,
        place: Place,
        test: &TruthCode,
        body: &BlockCode,
    ) -> Result<Option<MainStep>, Trap>
        requires { CanDo self.old level items.now next (Code.While place test.now body.now) }
        ensures { HasDone level items.now next result self.old self.new }
    {
        let frame = self.frame(level);
        if !truth(self.scalars.as_slice(), test)? {
            self.move_on(level, next);
            return Ok(None);
        }
        self.take_turn(place)?;
        self.enter(level, frame, false);
        Ok(Some(MainStep::Enter(body.scope)))
    }

    /// Reaches a comprehension.
    fn reach(
        &mut self,
        items: &[ItemCode],
        level: usize,
        next: Frame,
        comprehension: u32,
    ) -> Result<Option<MainStep>, Trap>
        requires { CanDo self.old level items.now next (Code.For comprehension) }
        ensures { HasDone level items.now next result self.old self.new }
    {
        self.move_on(level, next);
        Ok(Some(MainStep::Comp(comprehension)))
    }

    /// Does the item of the innermost block.
    fn run_item(
        &mut self,
        items: &[ItemCode],
        level: usize,
        next: Frame,
        item: &ItemCode,
    ) -> Result<Option<MainStep>, Trap>
        requires { CanDo self.old level items.now next item.now }
        ensures { HasDone level items.now next result self.old self.new }
    {
        match item {
            ItemCode::Field { field, init } => self.declare(items, level, next, *field, init),
            ItemCode::Var { scalar, init } => {
                self.declare_scalar(items, level, next, *scalar, init)
            }
            ItemCode::Assign { scalar, how, value } => {
                self.assign_value(items, level, next, *scalar, *how, value)
            }
            ItemCode::If {
                test,
                first,
                second,
            } => self.choose(items, level, next, test, first, second),
            ItemCode::While { place, test, body } => {
                self.repeat(items, level, next, *place, test, body)
            }
            ItemCode::For { comprehension } => self.reach(items, level, next, *comprehension),
            ItemCode::Print { place, value } => self.print_value(items, level, next, *place, value),
        }
    }

    /// Does the items of the innermost block, up to an event or to its end.
    fn run_items(&mut self, items: &[ItemCode], level: usize) -> Option<MainStep>
        requires can { CanAdvance self.old level items.now }
        requires innermost { suc level ≡ self.old.depth }
        ensures advanced { (w : World) (outside : List ℕ) (p : Progress)
            (remaining : Computation Progress Done)
            → StandsAt w self.old level outside items.now p remaining
            → HasAdvanced w level outside items.now p remaining result self.new }
        ensures keeps { KeepsShape level self.old self.new }
        ensures fewer { (worth : ℕ) → events_in items.now < worth → CountsDown result
            (events_at worth level items.now self.old)
            (events_at worth level items.now self.new) }
    {
        loop {
            let frame = self.frame(level);
            if frame.index >= items.len() {
                return None;
            }
            let next = next_of(frame, items.len());
            match self.run_item(items, level, next, &items[frame.index]) {
                Ok(None) => {}
                Ok(Some(step)) => return Some(step),
                Err(trap) => return Some(MainStep::Over(RunEnd::Trap(trap))),
            }
        }
    }

    /// The level of the innermost block.
    fn innermost(&self) -> usize
        requires { 0 < self.now.depth }
        ensures { suc result ≡ self.now.depth }
    {
        self.depth - 1
    }

    /// Continues a block at a level, up to an event or to the end of the block.
    fn advance(&mut self, items: &[ItemCode], level: usize) -> Option<MainStep>
        requires { CanAdvance self.old level items.now }
        ensures advanced { (w : World) (outside : List ℕ) (p : Progress)
            (remaining : Computation Progress Done)
            → StandsAt w self.old level outside items.now p remaining
            → HasAdvanced w level outside items.now p remaining result self.new }
        ensures keeps { KeepsShape level self.old self.new }
        ensures fewer { (worth : ℕ) → events_in items.now < worth → CountsDown result
            (events_at worth level items.now self.old)
            (events_at worth level items.now self.new) }
    {
        if level >= self.innermost() {
            return self.run_items(items, level);
        }
        let frame = self.frame(level);
        let (block, is_repeated) = block_of(items, frame)?;
        if let Some(step) = self.advance(block.items.as_slice(), level + 1) {
            return Some(step);
        }
        self.leave(level, frame, is_repeated, items.len());
        Some(MainStep::Leave(block.scope))
    }

    /// Goes back from an inner block to the block at a level.
    fn leave(&mut self, level: usize, frame: Frame, is_repeated: bool, count: usize)
        requires level { level < length self.old.frames }
        requires frame { frame.index < count }
        ensures { self.new ≡ record self.old {
          depth = suc level;
          frames = frames_left self.old.frames level frame is_repeated;
        } }
    {
        let _levels = self.frames.len();
        self.depth = level + 1;
        if !is_repeated {
            self.move_on(level, next_of(frame, count));
        }
    }

    /// A run of a checked program, or out of memory.
    pub fn prepare(alloc: Global, c: &Checked) -> Result<MainRun, NoMemory>
        ensures { IfOk result (λ r. IsPreparedRun c.now r) }
    {
        let mut frames = Items::new(alloc);
        reserve(&mut frames, c.items(), 0)?;
        Ok(MainRun {
            scalars: zeros(alloc, c.scalars().len())?,
            prints: zeros(alloc, PRINT_LIMIT)?,
            printed: 0,
            turns: 0,
            frames,
            depth: 0,
        })
    }

    /// Goes to the start of the program, with a number of turns for its `while` loops.
    pub fn begin(&mut self, turns: u64)
        ensures begun { HasBegunRun turns self.new }
        ensures prepared { (checked : Parts) → IsPreparedRun checked self.old
            → IsPreparedRun checked self.new }
    {
        self.turns = turns;
        self.printed = 0;
        self.depth = 0;
    }

    /// The scalars, by their numbers.
    pub fn scalars(&self) -> &[i64]
        ensures { result.now ≡ self.now.scalars }
    {
        self.scalars.as_slice()
    }

    /// Sets a scalar, after a comprehension has changed it.
    pub fn set_scalar(&mut self, scalar: u32, value: i64)
        requires { scalar < length self.old.scalars }
        ensures { self.new ≡ record self.old { scalars = slice_set self.old.scalars scalar value } }
    {
        self.assign(scalar, value);
    }

    /// What the program has printed so far.
    pub fn prints(&self) -> &[i64]
        ensures { result.now ≡ take self.now.printed self.now.prints }
    {
        let prints = self.prints.as_slice();
        &prints[..self.printed.min(prints.len())]
    }

    /// The next event of a program after its first one.
    fn next_event(&mut self, c: &Checked) -> MainStep
        requires { CanAdvance self.old 0 c.now.items }
        ensures continued { (mesh : MeshLists) (program : Main) (turns : ℕ) (p : Progress)
            → (at : IsAt mesh program turns c.now.items p self.old)
            → HasNext (record { mesh = mesh; turns = turns; parts = parts_of program })
            c.now.items p at.remaining result self.new }
        ensures keeps { KeepsShape 0 self.old self.new }
        ensures fewer { HasFewer result (remaining_events c.now.items self.old)
            (remaining_events c.now.items self.new) }
    {
        match self.advance(c.items(), 0) {
            Some(step) => step,
            None => MainStep::Over(RunEnd::Done),
        }
    }

    /// Opens the outermost scope.
    fn open(&mut self)
        requires { 0 < length self.old.frames }
        ensures { self.new ≡ record self.old {
          frames = slice_set self.old.frames 0 (record { index = 0; after_else = false });
          depth = 1;
        } }
    {
        self.frames.set(
            0,
            Frame {
                index: 0,
                after_else: false,
            },
        );
        self.depth = 1;
    }

    /// The next event of a program that has begun: the first one opens the outermost scope.
    pub fn next(&mut self, c: &Checked) -> MainStep
        requires { CanContinue c.now self.old }
        ensures opened { (mesh : MeshLists) (program : Main) (turns : ℕ)
            → IsMesh (length mesh.points) (corner_lists mesh)
            → checked_program program ≡ Ok c.now
            → HasBegunRun turns self.old → IsPreparedRun c.now self.old
            → HasOpened mesh program turns c.now.items result self.new }
        ensures continued { (mesh : MeshLists) (program : Main) (turns : ℕ) (p : Progress)
            → (at : IsAt mesh program turns c.now.items p self.old)
            → HasNext (record { mesh = mesh; turns = turns; parts = parts_of program })
            c.now.items p at.remaining result self.new }
        ensures prepared { IsPreparedRun c.now self.old → IsPreparedRun c.now self.new }
        ensures fewer { HasFewer result (remaining_events c.now.items self.old)
            (remaining_events c.now.items self.new) }
    {
        if self.depth == 0 {
            self.open();
            return MainStep::Enter(0);
        }
        self.next_event(c)
    }
}
