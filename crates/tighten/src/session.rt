//! A run of the program: the problem, the placement that is made of it, and the calls so far.

ghost use Rattle.std.specs.Prelude.{◌≡◌, IfOk, OnErr, OnOk};
ghost use Rattle.placement.specs.States.{state_of, unmade};
ghost use Rattle.placement.specs.Makes.{make_answer, make_state};
ghost use Rattle.narrower.specs.Layers.{rounds_of};
ghost use Rattle.tighten.specs.declared.reply.Reply.TheVariants as reply;
ghost use Rattle.tighten.specs.Contents.{unknown, size_of, box_of};
ghost use Rattle.tighten.specs.Descriptions.{taken_at, TakenIn};
ghost use Rattle.tighten.specs.Runs.{Run, Narrows};
ghost use Rattle.tighten.specs.Obeying.{Obeyed};
ghost use Rattle.tighten.specs.Calls.{told, untold, untold_answer, reply_to, reply_by, layered, narrow_reply, narrow_left, read_answer, call_reply, call_state};

use crate::box_text::BoxText;
use crate::command::{Call, Command, Description, Layers, Plan, Reading, ordinal, parse};
use crate::problem::Problem;
use crate::refusal::Refusal;
use crate::reply::Reply;
use crate::summary::{Narrowing, Outcome, Summary};
use crate::wrong::Wrong;
use model::draft::RowDraft;
use narrower::faults::PlacementFault;
use narrower::interface::Narrower;
use narrower::one_row::OneRow;
use narrower::pair::Pair;
use narrower::rounds::Rounds;
use narrower::star::Star;
use placement::placement::Placement;
use placement::standing::Standing;
use std::alloc::{AllocError, Global};
use std::marker::Model;

/// A problem, its placement, and how many calls there were and how many of them were refused.
#[derive(Drop)]
pub struct Session {
    heap: Global,
    problem: Problem,
    placement: Placement,
    calls: u64,
    refused: u64,
}

impl Model for Session {
    ghost Value = { Run };

    ghost view = { λ s. record { problem = s.problem; state = state_of s.placement } };
}

impl Session {
    /// A run before its first line.
    pub fn new(heap: Global) -> Session
        ensures { (result.problem ≡ unknown) × (result.state ≡ unmade) }
    {
        Session {
            heap,
            problem: Problem::new(heap),
            placement: Placement::new(),
            calls: 0,
            refused: 0,
        }
    }

    /// Does what a line says; a call has a reply.
    pub fn obey<'a>(&mut self, line: &'a str) -> Result<Option<Reply>, Wrong<'a>>
        ensures { Obeyed result self.old.problem self.old.state self.new.problem self.new.state }
    {
        match parse(line)? {
            None => Ok(None),
            Some(Command::Describe(line)) => {
                self.describe(line)?;
                Ok(None)
            }
            Some(Command::Call(call)) => Ok(Some(self.answer(call)?)),
        }
    }

    /// Takes in a line of the problem, which cannot be changed once it is made.
    fn describe<'a>(&mut self, line: Description) -> Result<(), Wrong<'a>>
        ensures taken { TakenIn result (taken_at self.old.state.standing line self.old.problem) self.old.problem self.new.problem }
        ensures same { self.new.state ≡ self.old.state }
    {
        if self.placement.size().is_ok() {
            return Err(Wrong::AfterMake);
        }
        self.problem.describe(line)
    }

    /// Makes a call and counts it.
    fn answer(&mut self, call: Call) -> Result<Reply, AllocError>
        ensures answer { IfOk result (λ reply. untold reply ≡ call_reply call self.old.problem self.old.state) }
        ensures after { OnOk result (self.new.state ≡ call_state call self.old.problem self.old.state) }
        ensures refused { OnErr result (self.new.state ≡ self.old.state) }
        ensures same { self.new.problem ≡ self.old.problem }
    {
        let answer = match call {
            Call::Make => {
                let rows = self.problem.rows(self.heap)?;
                self.make(rows)
            }
            Call::Narrow(plan) => self.narrow(plan),
            Call::Read(what) => self.read(what),
        };
        Ok(self.count(call, answer))
    }

    /// Counts a call, and gives the reply to it.
    fn count(&mut self, call: Call, answer: Result<Reply, PlacementFault>) -> Reply
        ensures value { untold result ≡ reply_to call (untold_answer answer) }
        ensures same { self.new ≡ self.old }
    {
        self.calls = self.calls.saturating_add(1);
        match answer {
            Ok(reply) => reply,
            Err(fault) => {
                self.refused = self.refused.saturating_add(1);
                Reply::Refused(Refusal { call, fault })
            }
        }
    }

    /// Makes the placement of the problem with a copy of its rows.
    fn make(&mut self, rows: Vec<RowDraft>) -> Result<Reply, PlacementFault>
        ensures answer { untold_answer result ≡ told (λ _. reply.Made) (make_answer self.old.state (size_of self.old.problem) (box_of self.old.problem) rows.items) }
        ensures after { self.new.state ≡ make_state self.old.state (size_of self.old.problem) (box_of self.old.problem) rows.items }
        ensures same { self.new.problem ≡ self.old.problem }
    {
        let size = self.problem.size();
        self.placement.make(size, self.problem.spans(), rows)?;
        Ok(Reply::Made)
    }

    /// Reads the rows, from left to right, and narrows once by the layers over them.
    fn narrow(&mut self, plan: Plan) -> Result<Reply, PlacementFault>
        ensures answer { untold_answer result ≡ narrow_reply plan self.old.state }
        ensures after { self.new.state ≡ narrow_left plan self.old.state }
        ensures same { self.new.problem ≡ self.old.problem }
    {
        let first = self.placement.row(ordinal(plan.first))?;
        match plan.second {
            None => self.narrow_layered(plan.layers, OneRow::new(first)),
            Some(k) => {
                let second = self.placement.row(ordinal(k))?;
                let pair = Pair::new(OneRow::new(first), OneRow::new(second));
                self.narrow_layered(plan.layers, pair)
            }
        }
    }

    /// Narrows by layers over a narrower.
    // A match and no `dyn`: layers are types over what is below, and a `dyn` doesn't stand for a narrower there but in a box, which needs memory.
    fn narrow_layered<N: Narrower + Drop>(
        &mut self,
        layers: Layers,
        base: N,
    ) -> Result<Reply, PlacementFault>
        ensures { Narrows (layered layers (N.means base)) (reply_by layers) result self.old self.new }
    {
        match layers {
            Layers::Plain => self.narrow_by(base),
            Layers::Star(s) => self.narrow_by(Star::new(base, ordinal(s))),
            Layers::Rounds(k) => self.narrow_rounds(base, k),
            Layers::StarOfRounds(s, k) => {
                self.narrow_by(Star::new(Rounds::new(base, k), ordinal(s)))
            }
            Layers::RoundsOfStar(k, s) => self.narrow_rounds(Star::new(base, ordinal(s)), k),
        }
    }

    /// Narrows by a narrower.
    fn narrow_by<N: Narrower + Drop>(&mut self, mut by: N) -> Result<Reply, PlacementFault>
        ensures { Narrows (N.means by) reply.Narrowing result self.old self.new }
    {
        let answer = self.placement.narrow(&mut by)?;
        Ok(Reply::Narrowing(answer))
    }

    /// Narrows by rounds of a narrower, which tell how many they were.
    // Not through `narrow_by`: the reply needs what the rounds tell after the call.
    fn narrow_rounds<N: Narrower + Drop>(
        &mut self,
        below: N,
        rounds: usize,
    ) -> Result<Reply, PlacementFault>
        ensures { Narrows (rounds_of rounds (N.means below)) (λ a. reply.Rounds a 0) result self.old self.new }
    {
        let mut by = Rounds::new(below, rounds);
        let answer = self.placement.narrow(&mut by)?;
        Ok(Reply::Rounds(answer, by.told()))
    }

    /// Reads what is asked for.
    fn read(&self, what: Reading) -> Result<Reply, PlacementFault>
        ensures { untold_answer result ≡ read_answer what self.now.state }
    {
        match what {
            Reading::Size => Ok(Reply::Size(self.placement.size()?)),
            Reading::Box => Ok(Reply::Box(BoxText::new(self.placement.spans()?))),
            Reading::Standing => Ok(Reply::Standing(self.placement.standing()?)),
            Reading::Row(k) => {
                let row = self.placement.row(ordinal(k))?;
                Ok(Reply::Row(k, row.draft))
            }
        }
    }

    /// What the run came to.
    pub fn summary(&self) -> Summary {
        let outcome = match (self.placement.standing(), self.placement.spans()) {
            (Ok(Standing::Nowhere), _) => Outcome::NoPlace,
            (_, Ok(spans)) => Outcome::Open(Narrowing::between(self.problem.spans(), spans)),
            _ => Outcome::Nothing,
        };
        Summary {
            calls: self.calls,
            refused: self.refused,
            outcome,
        }
    }
}
