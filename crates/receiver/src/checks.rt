ghost use Rattle.std.specs.Result.{result_err};
ghost use Rattle.std.specs.Prelude.{◌≡◌, ◌≤◌, [], ◌∷◌};
ghost use Rattle.machine.specs.Checks.{first_refusal};
ghost use Rattle.machine.specs.Settings.{highest_cost};
ghost use Rattle.machine.specs.Machine.{retirement_check, share_check, waiting_checks, arrive_checks, step_checks, work_checks, fetch_checks};
ghost use Rattle.receiver.specs.Figures.{Timely};
ghost use Rattle.receiver.specs.Settings.{settings_of};

use crate::cores::{BEGIN_CHARGE, Core, MOST_OUT};
use crate::settings::Settings;
use board::{Board, HIGHEST_CLASS_COST};
use machine::Refusal;

/// Packets numbered, or periods closed, after which a receiver is retired.
const RETIREMENT: u32 = 1_000_000_000;

impl<B: Board> Core<B> {
    fn check_retired(&self) -> Result<(), Refusal>
        ensures value { result_err result ≡ first_refusal (retirement_check self.now ∷ []) }
    {
        if self.counts.numbered >= RETIREMENT || self.clock.closed >= RETIREMENT {
            return Err(Refusal::Retired);
        }
        Ok(())
    }

    pub(crate) fn check_arrive(&self, bearer: usize, octets: usize) -> Result<(), Refusal>
        ensures value { result_err result ≡ first_refusal (arrive_checks bearer octets self.now) }
    {
        self.check_retired()?;
        if bearer >= self.board.size() {
            return Err(Refusal::NotShown(bearer));
        }
        if !(1..=384).contains(&octets) {
            return Err(Refusal::BadLength(octets));
        }
        Ok(())
    }

    pub(crate) fn check_step(&self, settings: &Settings) -> Result<(), Refusal>
        ensures value { result_err result ≡ first_refusal (step_checks (settings_of settings.now) self.now self.now.grant) }
    {
        self.check_retired()?;
        if self.grant.is_some() {
            return Ok(());
        }
        if self.clock.used >= settings.limit {
            return Err(Refusal::LimitUsed);
        }
        if self.hold != 0 {
            return Err(Refusal::OnHold);
        }
        if self.listed.len() == 0 {
            return Err(Refusal::NoneListed);
        }
        Ok(())
    }

    pub(crate) fn check_work(&self, settings: &Settings, cycles: u64) -> Result<(), Refusal>
        requires time { Timely self.now.clock }
        ensures value { result_err result ≡ first_refusal (work_checks (settings_of settings.now) cycles self.now) }
    {
        self.check_retired()?;
        if !(1..=settings.period).contains(&cycles) {
            return Err(Refusal::BadWork);
        }
        if self.clock.elapsed + cycles > settings.period {
            let left = settings.period.saturating_sub(self.clock.elapsed);
            return Err(Refusal::PastPeriod(left));
        }
        Ok(())
    }

    pub(crate) fn check_fetch(&self) -> Result<(), Refusal>
        ensures value { result_err result ≡ first_refusal (fetch_checks self.now) }
    {
        if self.queue.len() == 0 {
            return Err(Refusal::NoneQueued);
        }
        if self.out.len() >= MOST_OUT {
            return Err(Refusal::AllOut);
        }
        Ok(())
    }

    /// Refuses where a packet waits on the board, in the first such bearer.
    #[tactic(auto, using(crate::proofs::Surveys::waits_not, crate::proofs::Surveys::waits_here, crate::proofs::Surveys::none_waits))]
    pub(crate) fn check_waiting(&self) -> Result<(), Refusal>
        ensures value { result_err result ≡ first_refusal (waiting_checks 0 self.now.bearers) }
    {
        for bearer in 0..self.board.size() {
            if self.board.waiting(bearer) > 0 {
                return Err(Refusal::PacketWaits(bearer));
            }
        }
        Ok(())
    }

    /// The highest take cost on the board.
    #[tactic(auto, using(crate::proofs::Surveys::cost_more, crate::proofs::Surveys::cost_all))]
    fn highest_cost(&self) -> u32
        ensures value { result ≡ highest_cost self.now.bearers }
        ensures bound { result ≤ 2000 }
    {
        let mut highest = 0;
        for bearer in 0..self.board.size() {
            highest = highest.max(self.board.cost(bearer));
        }
        highest
    }

    /// Refuses where the limit and the grant bound together are above the period.
    pub(crate) fn check_share(&self, settings: &Settings, greatest: u32) -> Result<(), Refusal>
        requires greatest { greatest ≤ 64 }
        ensures value { result_err result ≡ first_refusal (share_check greatest (settings_of settings.now) self.now.bearers ∷ []) }
    {
        let grant_bound = BEGIN_CHARGE + greatest * (self.highest_cost() + HIGHEST_CLASS_COST);
        if settings.limit + u64::from(grant_bound) > settings.period {
            return Err(Refusal::NoShare);
        }
        Ok(())
    }
}
