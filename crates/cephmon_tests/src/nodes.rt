//! Monitors that serve.

/// What was answered is shown by the next node on the same disks.
pub const SHOWN: &str = "\
> client 3 01180001000000000000000007000000000000000101610100000078
> run node 0 1 classic 127.0.0.1:6789 a b 9
client 3 0119000102000000000000000700000000000000010100000000000000
waits 1000 1000
status 0, \"\"
> client 3 01180001000000000000000008000000000000000401
> run node 0 1 classic 127.0.0.1:6789 a b 9
client 3 01190001040000000000000008000000000000000201010000000000000001000000000000000b0000000100000001610100000078
waits 1000 1000
status 0, \"\"
";

/// A command is answered after it is kept. The calls 12 to 15 of disk A are those with which its transaction is kept.
pub const KEPT: &str = "\
> empty-disks
> failing-a 12 1
> clock 5
> client 3 01180001000000000000000007000000000000000101610100000078
> run node 0 1 classic 127.0.0.1:6789 a b 9
waits 1000
status 6, \"disk fault\"
> power-cut
> run dump-keys 0 1 a b
monitor / boot_count
monitor / election_epoch
paxos / accepted_pn
paxos / last_pn
status 0, \"\"
> empty-disks
> failing-a 14 0
> clock 5
> client 3 01180001000000000000000007000000000000000101610100000078
> run node 0 1 classic 127.0.0.1:6789 a b 9
waits 1000
status 6, \"disk fault\"
> power-cut
> run dump-keys 0 1 a b
monitor / boot_count
monitor / election_epoch
paxos / accepted_pn
paxos / last_pn
status 0, \"\"
> empty-disks
> failing-a 14 1
> clock 5
> client 3 01180001000000000000000007000000000000000101610100000078
> run node 0 1 classic 127.0.0.1:6789 a b 9
waits 1000
status 6, \"disk fault\"
> power-cut
> run dump-keys 0 1 a b
kv / 1
kv / first_committed
kv / last_committed
monitor / boot_count
monitor / election_epoch
paxos / 1
paxos / accepted_pn
paxos / first_committed
paxos / last_committed
paxos / last_pn
status 0, \"\"
> empty-disks
> failing-a 15 0
> clock 5
> client 3 01180001000000000000000007000000000000000101610100000078
> run node 0 1 classic 127.0.0.1:6789 a b 9
waits 1000
status 6, \"disk fault\"
> power-cut
> run dump-keys 0 1 a b
monitor / boot_count
monitor / election_epoch
paxos / accepted_pn
paxos / last_pn
status 0, \"\"
> empty-disks
> failing-a 15 1
> clock 5
> client 3 01180001000000000000000007000000000000000101610100000078
> run node 0 1 classic 127.0.0.1:6789 a b 9
waits 1000
status 6, \"disk fault\"
> power-cut
> run dump-keys 0 1 a b
kv / 1
kv / first_committed
kv / last_committed
monitor / boot_count
monitor / election_epoch
paxos / 1
paxos / accepted_pn
paxos / first_committed
paxos / last_committed
paxos / last_pn
status 0, \"\"
> empty-disks
> failing-a 16 0
> clock 5
> client 3 01180001000000000000000007000000000000000101610100000078
> run node 0 1 classic 127.0.0.1:6789 a b 9
client 3 0119000102000000000000000700000000000000010100000000000000
waits 1000 1000
status 0, \"\"
> power-cut
> run dump-keys 0 1 a b
kv / 1
kv / first_committed
kv / last_committed
monitor / boot_count
monitor / election_epoch
paxos / 1
paxos / accepted_pn
paxos / first_committed
paxos / last_committed
paxos / last_pn
status 0, \"\"
";

/// A checkpoint that is due is made before anything is sent. The calls 2 to 7 of disk B are those of the checkpoint.
/// The header of disk A is of the first form, so a checkpoint is due.
pub const NODE_CHECKPOINT: &str = "\
> empty-disks
> stored-a 01434550484d4f4e310003000000000000010000000000000000
> failing-b 7 0
> idle
> run node 0 3 classic 127.0.0.1:6789,127.0.0.1:6790,127.0.0.1:6791 a b 1
status 6, \"disk fault\"
> empty-disks
> stored-a 01434550484d4f4e310003000000000000010000000000000000
> failing-b 8 0
> idle
> run node 0 3 classic 127.0.0.1:6789,127.0.0.1:6790,127.0.0.1:6791 a b 1
monitor 1 010100030100000000000000
monitor 2 010100030100000000000000
waits 1000
status 11, \"turns used\"
";

/// A message is heard only if it is whole and of the monitor or client that it names. Of these a PROBE and a request
/// are answered, and nothing is kept.
pub const HEARD: &str = "\
> monitor 1 010101030100000000000000
> monitor 2 010101030100000000000000
> client 3 010101030100000000000000
> monitor 1 010101020100000000000000
> monitor 0 010100030100000000000000
> client 3 01180003000000000000000009000000000000000401
> monitor 0 0118000300000000000000000a000000000000000401
> client 3 01180001000000000000000008000000000000000401
> monitor 1 011901030100000000000000080000000000000007
> client 3 011901030100000000000000080000000000000007
> client 3 -
> client 3 01
> client 3 02
> client 3 01*60001
> run node 0 3 classic 127.0.0.1:6789,127.0.0.1:6790,127.0.0.1:6791 a b 14
monitor 1 010100030100000000000000
monitor 2 010100030100000000000000
monitor 1 010200030100000000000000000000000000000000000000000000000000
client 3 011900030100000000000000090000000000000007
waits 1000 1000 1000 1000 1000 1000 1000 1000 1000 1000 1000 1000 1000 1000
status 11, \"turns used\"
> run dump-keys 0 3 a b
monitor / boot_count
monitor / election_epoch
status 0, \"\"
";

/// A node ends as its link does. Messages that could not be sent are lost.
pub const NODE_ENDS: &str = "\
> failing-sends 1 2
> run node 0 3 classic 127.0.0.1:6789,127.0.0.1:6790,127.0.0.1:6791 a b 9
monitor 1 010100030100000000000000
monitor 2 010100030100000000000000
waits 1000
status 0, \"\"
> empty-disks
> idle
> failing-sends 1 2
> run node 0 3 classic 127.0.0.1:6789,127.0.0.1:6790,127.0.0.1:6791 a b 1
monitor 1 010100030100000000000000
monitor 2 010100030100000000000000
waits 1000
status 11, \"turns used\"
> empty-disks
> failing-sends 1 2
> failing-receives 1
> run node 0 3 classic 127.0.0.1:6789,127.0.0.1:6790,127.0.0.1:6791 a b 9
monitor 1 010100030100000000000000
monitor 2 010100030100000000000000
waits 1000
status 7, \"link fault\"
> empty-disks
> idle
> failing-sends 1 2
> failing-receives 2
> run node 0 3 classic 127.0.0.1:6789,127.0.0.1:6790,127.0.0.1:6791 a b 9
monitor 1 010100030100000000000000
monitor 2 010100030100000000000000
waits 1000 1000
status 7, \"link fault\"
";

/// A disk that fails, a disk that holds no store, and the store of another monitor.
pub const NODE_REFUSED: &str = "\
> failing-a 1 0
> run node 0 1 classic 127.0.0.1:6789 a b 9
status 6, \"disk fault\"
> empty-disks
> stored-a 00*27
> run node 0 1 classic 127.0.0.1:6789 a b 9
status 8, \"not a store: disk a at 0\"
> empty-disks
> run node 1 3 classic 127.0.0.1:6789,127.0.0.1:6790,127.0.0.1:6791 a b 9
monitor 0 010101030100000000000000
monitor 2 010101030100000000000000
waits 1000
status 0, \"\"
> run node 2 3 classic 127.0.0.1:6789,127.0.0.1:6790,127.0.0.1:6791 a b 9
status 9, \"store of 1 of 3, asked for 2 of 3\"
";

/// No proposal number is left.
pub const SPENT: &str = "\
> bytes 434550484558503100018001000000057061786f73076c6173745f706e080000000000000000000040
> run store-import 0 1 a b
status 0, \"\"
> run node 0 1 classic 127.0.0.1:6789 a b 9
status 10, \"spent: Pn\"
";

/// A wait ends with the timer that is due next. A monitor of three probes at 0, and again at 2000.
pub const WAITS: &str = "\
> clock 0 1 1700 1999 2000 2001
> idle
> idle
> idle
> idle
> run node 1 3 classic 127.0.0.1:6789,127.0.0.1:6790,127.0.0.1:6791 a b 5
monitor 0 010101030100000000000000
monitor 2 010101030100000000000000
monitor 0 010101030100000000000000
monitor 2 010101030100000000000000
waits 1000 300 1 1000
status 11, \"turns used\"
";
