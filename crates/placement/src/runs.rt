//! Runs of calls on a placement.

ghost use Rattle.std.specs.Prelude.{◌≡◌, map};
ghost use Rattle.placement.specs.States.{state_of};
ghost use Rattle.placement.specs.Runs.{unrefused, after, ends, refusals};
ghost use Rattle.placement.specs.Calls.{act_of, tells_of, tells_after, tells_each};
ghost use Rattle.placement.specs.Promises.{Piled, RunKeeps, EveryRunKeepsItsPromises};
ghost use Rattle.placement.specs.Witnesses.{ThePromisesCanBeMet};

use crate::call::Call;
use crate::placement::Placement;
use narrower::interface::Narrower;

impl Placement {
    /// Makes one call, and tells whether it was not refused.
    // A bool: a run counts refusals, and what each was is the single call's to tell.
    fn make_call<N: Narrower>(&mut self, call: &mut Call<N>) -> bool
        ensures answer { result ≡ unrefused (act_of N.means call.old) (state_of self.old) }
        ensures after { state_of self.new ≡ after (act_of N.means call.old) (state_of self.old) }
        ensures same { act_of N.means call.new ≡ act_of N.means call.old }
        ensures told { tells_of call.new ≡ tells_after (state_of self.old) call.old }
    {
        match call {
            Call::Narrow(by) => self.narrow(by).is_ok(),
            Call::Check(weights, order, certificate) => {
                self.check(weights, order, certificate).is_ok()
            }
            Call::ReadSize => self.size().is_ok(),
            Call::ReadBox => self.spans().is_ok(),
            Call::ReadStanding => self.standing().is_ok(),
            Call::ReadRow(k) => self.row(*k).is_ok(),
        }
    }

    /// Makes each of the calls in turn, refused ones included, and tells how many were refused.
    pub fn run<N: Narrower>(&mut self, calls: &mut [Call<N>]) -> usize
        ensures answer { result ≡ refusals (state_of self.old) (map (act_of N.means) calls.old) }
        ensures after { state_of self.new ≡ ends (state_of self.old) (map (act_of N.means) calls.old) }
        ensures same { map (act_of N.means) calls.new ≡ map (act_of N.means) calls.old }
        ensures told { map tells_of calls.new ≡ tells_each N.means (state_of self.old) calls.old }
        ensures piled { Piled (state_of self.old) (map (act_of N.means) calls.old) }
        ensures keeps { RunKeeps (state_of self.old) (map (act_of N.means) calls.old) (state_of self.new) }
        ensures promises { EveryRunKeepsItsPromises }
        ensures witnesses { ThePromisesCanBeMet }
    {
        // Counted in the loop: a chain's closure would change the placement, and what it changes its caller does not know.
        // By index, so that a range that leaves calls out is refused for those calls: over an iterator any other slice is, whatever it leaves out.
        let mut refused: usize = 0;
        for i in 0..calls.len() {
            if !self.make_call(&mut calls[i]) {
                refused += 1;
            }
        }
        refused
    }
}
