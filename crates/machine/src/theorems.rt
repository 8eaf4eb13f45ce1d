ghost use Rattle.machine.specs.Edges.{edges};
ghost use Rattle.machine.specs.Examples.{replayed, examples};
ghost use Rattle.machine.specs.Standard.{standard_board, four};
ghost use Rattle.machine.specs.Laws.{Always, Lawful};
ghost use Rattle.machine.specs.Settings.{grant_bound};
ghost use Rattle.machine.specs.Sharp.{Sometimes, ShareMet};
ghost use Rattle.machine.specs.State.{put_up};
ghost use Rattle.std.specs.Prelude.{◌≡◌, map};

/// Carries in its contract the laws of the state machine: each is proved for every list of calls. It does nothing.
pub fn laws()
    ensures laws { Always Lawful }
{}

/// Carries in its contract what runs of the state machine come to: the worked examples, and one run that meets the bound of
/// the application's share. It does nothing.
#[tactic(auto, using(crate::proofs::Worked::as_written, crate::proofs::Worked::at_the_edges, crate::proofs::Sharp::share_met))]
pub fn examples()
    ensures as_written { map (replayed four (put_up standard_board)) examples ≡ examples }
    ensures at_the_edges { map (λ e. (e.0, replayed four e.0 e.1)) edges ≡ edges }
    ensures grant_bound { grant_bound four.greatest standard_board ≡ 25040 }
    ensures share_met { Sometimes ShareMet }
{}
