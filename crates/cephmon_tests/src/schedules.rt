//! Schedules that are replayed, and a schedule that is made.

/// A replay ends as its streams do.
pub const REPLAYED: &str = "\
> input monitors 1 classic
> input start 0 0
> input client 0 10 1 1 set a x
> input client 0 20 1 2 show kv
> run replay
monitors 1 classic
1 start 0 0
  store 4
  is active epoch 2 last 0
2 client 0 10 1 1 set a x
  store 6
  is active epoch 2 last 1
  reply 0 1.1 done 1
3 client 0 20 1 2 show kv
  reply 0 1.2 shown kv paxos=1 version=1 {\"a\":\"x\"}
end events=3 log=1
status 0, \"\"
> input monitors 1 classic
> input start 0 0
> input client 0 10 1 1 set a x
> input client 0 20 1 2 show kv
> failing-reads 1
> run replay
status 4, \"read fault\"
> input monitors 1 classic
> input start 0 0
> input client 0 10 1 1 set a x
> input client 0 20 1 2 show kv
> failing-writes 1
> run replay
status 5, \"write fault\"
";

/// A schedule whose seventh line is faulty, and a command that does not exist.
pub const SCHEDULE_REFUSED: &str = "\
> input monitors 1 classic
> input start 0 0
> input client 0 10 1 1 set a x
> input client 0 20 1 2 show kv
> input timer 0 lease 30
> input timer 0 lease 40
> input deliver x 5
> input start 0 50
> run replay
status 3, \"schedule refused: line 7, Number\"
> run help
status 2, \"words refused\"
";

/// The schedule of a number.
pub const MADE: &str = "\
> run made 2 46
{\"events\":46,\"last\":[1,1,1],\"log\":1,\"replies\":2,\"sent\":40,\"stores\":14}
status 0, \"\"
";
