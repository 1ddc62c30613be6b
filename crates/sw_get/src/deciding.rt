//! What a round does next.

ghost use Rattle.std.specs.Prelude.{◌≡◌, ◌+◌, ◌++◌, ◌<◌, ◌^◌, IfOk, filter, find, if◌then◌else◌, length, nat_lt, slice_get};
ghost use Rattle.sw_get.specs.declared.round_end.RoundEnd.TheVariants.{Absent, Unanswered};
ghost use Rattle.sw_get.specs.Round.{asked_going, candidates, choices_going, fetch_going, fetch_or, few_going, is_free, is_open, is_taken, lost, next_source, ran_out, risen_or, round_going, target_going, target_of};
ghost use Rattle.sw_gather.specs.Choices.{firsts};

use crate::round::Round;
use crate::round_end::{Going, KeptEvent, RoundEnd};
use std::alloc::Global;
use sw_gather::{candidates, firsts, has_index, has_target};
use sw_hashdir::{Floor, FloorKind};
use sw_message::{Target, highest_with, is_above, total_of};
use sw_types::{NoMemory, Policy};

impl Round {
    /// What it does next, by the greatest floor that was shown before it.
    pub(crate) fn going(
        &self,
        alloc: Global,
        policy: &Policy,
        handoffs: &[u16],
        primaries: &[u16],
        from: Option<Floor>,
    ) -> Result<Going, NoMemory>
        ensures { IfOk result (λ going. going ≡ round_going policy.now (record { handoffs = handoffs.now; primaries = primaries.now }) from self.now.facts) }
    {
        match device_at(handoffs, primaries, self.asked) {
            Some(_) if self.asked >= handoffs.len() && self.answered < handoffs.len() => Ok(
                Going::Wait,
            ),
            Some(device) => Ok(Going::Ask(device)),
            None if self.answered < self.asked => Ok(Going::Wait),
            None => self.going_asked(alloc, policy, from),
        }
    }

    // What it does once every device has answered or was given up.
    fn going_asked(
        &self,
        alloc: Global,
        policy: &Policy,
        from: Option<Floor>,
    ) -> Result<Going, NoMemory>
        ensures { IfOk result (λ going. going ≡ asked_going policy.now from (target_of from self.now.facts) self.now.facts) }
    {
        let target = self.target(&from);
        self.going_for(alloc, policy, from, &target)
    }

    // What it does by its target.
    fn going_for(
        &self,
        alloc: Global,
        policy: &Policy,
        from: Option<Floor>,
        target: &Option<Floor>,
    ) -> Result<Going, NoMemory>
        ensures { IfOk result (λ going. going ≡ asked_going policy.now from target.now self.now.facts) }
    {
        match target {
            Some(to) => self.going_to(alloc, policy, from, to),
            None => Ok(Going::End(self.ending_with_none(policy))),
        }
    }

    // What it does by the kind of its target.
    fn going_to(
        &self,
        alloc: Global,
        policy: &Policy,
        from: Option<Floor>,
        to: &Floor,
    ) -> Result<Going, NoMemory>
        ensures { IfOk result (λ going. going ≡ target_going policy.now from to.now to.now.kind self.now.facts) }
    {
        match to.kind {
            FloorKind::Tombstone => Ok(Going::End(RoundEnd::Buried { stamp: to.stamp })),
            FloorKind::Durable => self.going_with(alloc, policy, from, *to),
        }
    }

    // How it ends where no floor was shown.
    fn ending_with_none(&self, policy: &Policy) -> RoundEnd
        ensures { result ≡ if nat_lt (length self.now.facts.misses) policy.now.c then Absent else Unanswered }
    {
        if self.misses.len() < policy.c() as usize {
            RoundEnd::Absent
        } else {
            RoundEnd::Unanswered
        }
    }

    // The greatest floor that was shown before it, or in it by a listing.
    fn target(&self, from: &Option<Floor>) -> Option<Floor>
        ensures { result ≡ target_of from.now self.now.facts }
    {
        let mut best = *from;
        for (_, listing) in &self.lists {
            best = highest_with(best, listing);
        }
        best
    }

    // What it does where the target is an archive's.
    fn going_with(
        &self,
        alloc: Global,
        policy: &Policy,
        from: Option<Floor>,
        to: Floor,
    ) -> Result<Going, NoMemory>
        ensures { IfOk result (λ going. going ≡ choices_going policy.now from to (candidates policy.now to.stamp self.now.facts) self.now.facts) }
    {
        let choices = candidates(alloc, &self.lists, total_of(policy), to.stamp)?;
        let first = firsts(alloc, &choices)?;
        if first.len() < policy.k() as usize {
            return Ok(self.going_few(from, to, first.len() as u32));
        }
        self.going_fetch(alloc, policy, from, to, &choices, &first)
    }

    // What it does where archives of fewer than k indices are listed.
    fn going_few(&self, from: Option<Floor>, to: Floor, have: u32) -> Going
        ensures { result ≡ few_going from to have self.now.facts }
    {
        let stamp = to.stamp;
        if self.misses.is_empty() {
            risen_or(from, to, RoundEnd::TooFew { stamp, have })
        } else {
            risen_or(from, to, RoundEnd::Unanswered)
        }
    }

    // What it does where archives of k indices are listed.
    fn going_fetch(
        &self,
        alloc: Global,
        policy: &Policy,
        from: Option<Floor>,
        to: Floor,
        choices: &[Target],
        first: &[Target],
    ) -> Result<Going, NoMemory>
        requires { first.now ≡ firsts choices.now }
        ensures { IfOk result (λ going. going ≡ fetch_going policy.now from to choices.now self.now.facts) }
    {
        let k = policy.k() as usize;
        if self.sources.len() == k {
            return Ok(Going::End(RoundEnd::Found { stamp: to.stamp }));
        }
        if self.tried.len() >= k + self.lost() {
            return Ok(Going::Wait);
        }
        let source = self.next_source(alloc, policy, choices, first)?;
        Ok(self.fetch_or(from, to, source))
    }

    // The next source, where there is one.
    fn next_source(
        &self,
        alloc: Global,
        policy: &Policy,
        choices: &[Target],
        first: &[Target],
    ) -> Result<Option<Target>, NoMemory>
        requires { first.now ≡ firsts choices.now }
        ensures { IfOk result (λ source. source ≡ next_source policy.now choices.now self.now.facts) }
    {
        if self.tried.len() < policy.k() as usize {
            return Ok(first.get(self.tried.len()).copied());
        }
        let opened = self.opened(alloc)?;
        Ok(self.first_free(choices, &opened))
    }

    // The first source that is free.
    fn first_free(&self, choices: &[Target], opened: &[Target]) -> Option<Target>
        requires { opened.now ≡ filter (is_open self.now.facts) self.now.facts.tried }
        ensures { result ≡ find (is_free self.now.facts) choices.now }
    {
        for source in choices {
            if self.is_free(*source, opened) {
                return Some(*source);
            }
        }
        None
    }

    // The sources that neither answered nor were given up.
    fn opened(&self, alloc: Global) -> Result<Vec<Target>, NoMemory>
        ensures { IfOk result (λ sources. sources.items ≡ filter (is_open self.now.facts) self.now.facts.tried) }
    {
        let mut opened = Vec::new(alloc);
        for source in &self.tried {
            if self.is_open(*source) {
                opened.push(*source)?;
            }
        }
        Ok(opened)
    }

    // Whether a source neither answered nor was given up.
    fn is_open(&self, source: Target) -> bool
        ensures { result ≡ is_open self.now.facts source }
    {
        let is_closed = has_target(&self.sources, source)
            || has_target(&self.gone, source)
            || has_target(&self.failed, source);
        !is_closed
    }

    // Whether a source was not tried, and no archive of its index was brought or is being fetched.
    fn is_free(&self, source: Target, opened: &[Target]) -> bool
        requires { opened.now ≡ filter (is_open self.now.facts) self.now.facts.tried }
        ensures { result ≡ is_free self.now.facts source }
    {
        !has_target(&self.tried, source) && !self.is_taken(source.index, opened)
    }

    // Whether an archive of an index was brought or is being fetched.
    #[tactic(auto, using(sw_gather::proofs::Choosing::any_filtered))]
    fn is_taken(&self, index: u32, opened: &[Target]) -> bool
        requires { opened.now ≡ filter (is_open self.now.facts) self.now.facts.tried }
        ensures { result ≡ is_taken self.now.facts index }
    {
        has_index(&self.sources, index) || has_index(opened, index)
    }

    // How many sources lack their archive or missed.
    fn lost(&self) -> usize
        ensures lost { result ≡ lost self.now.facts }
        ensures few { result < 2 ^ 61 }
    {
        self.gone.as_slice().len() + self.failed.as_slice().len()
    }

    // It fetches from the next source, waits for those that did not answer, or has none left.
    fn fetch_or(&self, from: Option<Floor>, to: Floor, source: Option<Target>) -> Going
        ensures { result ≡ fetch_or from to self.now.facts source }
    {
        let closed = self.sources.as_slice().len() + self.lost();
        match source {
            Some(source) => Going::Fetch {
                stamp: to.stamp,
                source,
            },
            None if closed < self.tried.len() => Going::Wait,
            None => self.ran_out(from, to),
        }
    }

    // What it does once no source is left.
    fn ran_out(&self, from: Option<Floor>, to: Floor) -> Going
        ensures { result ≡ ran_out from to self.now.facts.gone }
    {
        match self.gone.first() {
            Some(source) => Going::Keep(KeptEvent::Gone {
                device: source.device,
                index: source.index,
            }),
            None => risen_or(from, to, RoundEnd::Unanswered),
        }
    }
}

// The device that is asked as this one: the handoffs first, and then the primaries.
fn device_at(handoffs: &[u16], primaries: &[u16], number: usize) -> Option<u16>
    ensures { result ≡ slice_get (handoffs.now ++ primaries.now) number }
{
    if number < handoffs.len() {
        handoffs.get(number).copied()
    } else {
        primaries.get(number - handoffs.len()).copied()
    }
}

// The round is kept where the target rose, and else it ends the get.
fn risen_or(from: Option<Floor>, to: Floor, ending: RoundEnd) -> Going
    ensures { result ≡ risen_or from to ending }
{
    match from {
        Some(from) if !is_above(&to, &from) => Going::End(ending),
        _ => Going::Keep(KeptEvent::Rose { from, to }),
    }
}
