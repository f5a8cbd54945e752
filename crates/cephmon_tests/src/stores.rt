//! Stores of monitors that do not run, and the comparison of two reports.

/// The store of a monitor that was alone, and that set `a` to `x` as version 1.
pub const LOOKED_INTO: &str = "\
> client 3 01180001000000000000000007000000000000000101610100000078
> run node 0 1 classic 127.0.0.1:6789 a b 9
client 3 0119000102000000000000000700000000000000010100000000000000
waits 1000 1000
status 0, \"\"
> run scrub 0 1 a b
scrub rank=0 monitors=1 last=1 marked=0
kv keys=3 sha256=198e2051dd660079d284c33cc028038c81738468e69151e19eee9b914e6ffa14
logm keys=0 sha256=e3b0c44298fc1c149afbf4c8996fb92427ae41e4649b934ca495991b7852b855
paxos keys=2 sha256=1e701c33151ca2120e737df121dc4512b92ccde95bebf4095c42dbfe68b92fff
status 0, \"\"
> run dump-paxos 0 1 a b 1 9
1 4
  put paxos first_committed 8
  put kv 1 8
  put kv first_committed 8
  put kv last_committed 8
status 0, \"\"
> run dump-keys 0 1 a b
kv / 1
kv / first_committed
kv / last_committed
monitor / boot_count
monitor / election_epoch
paxos / 1
paxos / accepted_pn
paxos / first_committed
paxos / last_committed
paxos / last_pn
status 0, \"\"
";

/// An export is imported once. Its one entry is `kv/a` = `x`, of rank 0 of 1.
pub const IMPORTED: &str = "\
> bytes 434550484558503100018001000000026b7601610100000078
> run store-import 0 1 a b
status 0, \"\"
> run dump-keys 0 1 a b
kv / a
status 0, \"\"
> run store-export 0 1 a b
bytes 434550484558503100018001000000026b7601610100000078
status 0, \"\"
> bytes 434550484558503100018001000000026b7601610100000078
> run store-import 0 1 a b
status 15, \"not empty: disk a\"
";

/// An export without its last byte, no byte of an export, and an export of rank 1 of 2.
pub const NO_EXPORT: &str = "\
> bytes 434550484558503100018001000000026b76016101000000
> run store-import 0 1 a b
status 16, \"export refused: 24\"
> run store-import 0 1 a b
status 16, \"export refused: 0\"
> bytes 434550484558503101028001000000026b7601610100000078
> run store-import 0 1 a b
status 9, \"store of 1 of 2, asked for 0 of 1\"
";

/// Two reports that differ under `kv`, two equal reports, and a report that lacks its last line.
pub const COMPARED: &str = "\
> input scrub rank=0 monitors=1 last=1 marked=0
> input kv keys=3 sha256=198e2051dd660079d284c33cc028038c81738468e69151e19eee9b914e6ffa14
> input logm keys=0 sha256=e3b0c44298fc1c149afbf4c8996fb92427ae41e4649b934ca495991b7852b855
> input paxos keys=2 sha256=1e701c33151ca2120e737df121dc4512b92ccde95bebf4095c42dbfe68b92fff
> input scrub rank=0 monitors=1 last=1 marked=0
> input kv keys=3 sha256=098e2051dd660079d284c33cc028038c81738468e69151e19eee9b914e6ffa14
> input logm keys=0 sha256=e3b0c44298fc1c149afbf4c8996fb92427ae41e4649b934ca495991b7852b855
> input paxos keys=2 sha256=1e701c33151ca2120e737df121dc4512b92ccde95bebf4095c42dbfe68b92fff
> run scrub-compare
mismatch kv keys=3,3 sha256=198e2051dd660079d284c33cc028038c81738468e69151e19eee9b914e6ffa14,098e2051dd660079d284c33cc028038c81738468e69151e19eee9b914e6ffa14
end mismatches=1
status 0, \"\"
> input scrub rank=0 monitors=1 last=1 marked=0
> input kv keys=3 sha256=198e2051dd660079d284c33cc028038c81738468e69151e19eee9b914e6ffa14
> input logm keys=0 sha256=e3b0c44298fc1c149afbf4c8996fb92427ae41e4649b934ca495991b7852b855
> input paxos keys=2 sha256=1e701c33151ca2120e737df121dc4512b92ccde95bebf4095c42dbfe68b92fff
> input scrub rank=0 monitors=1 last=1 marked=0
> input kv keys=3 sha256=198e2051dd660079d284c33cc028038c81738468e69151e19eee9b914e6ffa14
> input logm keys=0 sha256=e3b0c44298fc1c149afbf4c8996fb92427ae41e4649b934ca495991b7852b855
> input paxos keys=2 sha256=1e701c33151ca2120e737df121dc4512b92ccde95bebf4095c42dbfe68b92fff
> run scrub-compare
end mismatches=0
status 0, \"\"
> input scrub rank=0 monitors=1 last=1 marked=0
> input kv keys=3 sha256=198e2051dd660079d284c33cc028038c81738468e69151e19eee9b914e6ffa14
> input logm keys=0 sha256=e3b0c44298fc1c149afbf4c8996fb92427ae41e4649b934ca495991b7852b855
> input paxos keys=2 sha256=1e701c33151ca2120e737df121dc4512b92ccde95bebf4095c42dbfe68b92fff
> input scrub rank=0 monitors=1 last=1 marked=0
> input kv keys=3 sha256=198e2051dd660079d284c33cc028038c81738468e69151e19eee9b914e6ffa14
> input logm keys=0 sha256=e3b0c44298fc1c149afbf4c8996fb92427ae41e4649b934ca495991b7852b855
> run scrub-compare
status 14, \"report refused: line 8\"
";
