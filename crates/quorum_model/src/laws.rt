ghost use Rattle.std.specs.Prelude.{◌≡◌, ℕ, List};
ghost use Rattle.quorum_model.specs.Monitors.{Monitors};
ghost use Rattle.quorum_model.specs.Runs.{run, all_writes};
ghost use Rattle.quorum_model.specs.Safe.{Safe};
ghost use Rattle.quorum_model.specs.World.{Event, first_world};
ghost use Rattle.log_model.specs.LogOfValues.{AllValues};

/// In every run of any monitors, a store kept the transactions of its monitor's events, in order, and nothing else. The
/// transaction of a crash is among them if and only if the crash keeps it.
pub fn law_written()
    ensures { (ms : Monitors) (events : List Event) (i : ℕ) → (run ms events).transactions i ≡ all_writes ms first_world events i }
{}

/// In every safe run, each entry of the log is the value of a command. So the laws of logs of values hold of it.
pub fn law_log()
    ensures { (ms : Monitors) (events : List Event) → Safe ms events → AllValues (run ms events).log }
{}
