//! Links that watch monitor 0 of 3.

/// A request is answered.
pub const ANSWERED: &str = "\
> watched
> from 1 client 7 050102030405060708
> clock 1000
> next
idle, 1 receives, 5 ms
client 7 [050102030405060708] {\"asked_ms\":[null,null,null],\"disks\":[\
    {\"buckets\":[0,0,0,0,0,0,0,0,0,0,0,0,0,0,0,0],\"bytes_read\":0,\"bytes_written\":0,\"greatest_ms\":0,\"length\":0,\"reads\":0,\"slow\":0,\"syncs\":0,\"total_ms\":0,\"writes\":0},\
    {\"buckets\":[0,0,0,0,0,0,0,0,0,0,0,0,0,0,0,0],\"bytes_read\":0,\"bytes_written\":0,\"greatest_ms\":0,\"length\":0,\"reads\":0,\"slow\":0,\"syncs\":0,\"total_ms\":0,\"writes\":0}],\
    \"elections\":0,\"epoch\":0,\"heard_ms\":[null,null,null],\"leader\":null,\"monitors\":3,\"ms\":1000,\"phase\":\"unknown\",\"quorum\":0,\"rank\":0,\
    \"received\":[0,0,0,0,0,0,0,0,0,0,0,0,0,0,0,0,0,0,0,0,0,0,0,0,0,0],\"refused\":0,\
    \"sent\":[0,0,0,0,0,0,0,0,0,0,0,0,0,0,0,0,0,0,0,0,0,0,0,0,0,0],\"source\":null,\"unkept\":0,\"version\":0}
";

/// A client is answered once per second. The client 1031 shares its time with the client 7. The clock goes back before the last request.
pub const ONCE: &str = "\
> watched
> from 1 client 7 050102030405060708
> from 1 client 7 050102030405060708
> from 1 client 8 050102030405060708
> from 1 client 7 050102030405060708
> from 1 client 1031 050102030405060708
> from 1 client 7 050102030405060708
> from 1 client 8 050102030405060708
> from 1 client 8 050102030405060708
> from 1 client 7 050102030405060708
> clock 1000 1001 1002 1999 1999 2000 2001 2002 5
> next
idle, 1 receives, 5 ms
client 7 [050102030405060708] {\"asked_ms\":[null,null,null],\"disks\":[\
    {\"buckets\":[0,0,0,0,0,0,0,0,0,0,0,0,0,0,0,0],\"bytes_read\":0,\"bytes_written\":0,\"greatest_ms\":0,\"length\":0,\"reads\":0,\"slow\":0,\"syncs\":0,\"total_ms\":0,\"writes\":0},\
    {\"buckets\":[0,0,0,0,0,0,0,0,0,0,0,0,0,0,0,0],\"bytes_read\":0,\"bytes_written\":0,\"greatest_ms\":0,\"length\":0,\"reads\":0,\"slow\":0,\"syncs\":0,\"total_ms\":0,\"writes\":0}],\
    \"elections\":0,\"epoch\":0,\"heard_ms\":[null,null,null],\"leader\":null,\"monitors\":3,\"ms\":1000,\"phase\":\"unknown\",\"quorum\":0,\"rank\":0,\
    \"received\":[0,0,0,0,0,0,0,0,0,0,0,0,0,0,0,0,0,0,0,0,0,0,0,0,0,0],\"refused\":0,\
    \"sent\":[0,0,0,0,0,0,0,0,0,0,0,0,0,0,0,0,0,0,0,0,0,0,0,0,0,0],\"source\":null,\"unkept\":0,\"version\":0}
> next
idle, 1 receives, 5 ms
> next
idle, 1 receives, 5 ms
client 8 [050102030405060708] {\"asked_ms\":[null,null,null],\"disks\":[\
    {\"buckets\":[0,0,0,0,0,0,0,0,0,0,0,0,0,0,0,0],\"bytes_read\":0,\"bytes_written\":0,\"greatest_ms\":0,\"length\":0,\"reads\":0,\"slow\":0,\"syncs\":0,\"total_ms\":0,\"writes\":0},\
    {\"buckets\":[0,0,0,0,0,0,0,0,0,0,0,0,0,0,0,0],\"bytes_read\":0,\"bytes_written\":0,\"greatest_ms\":0,\"length\":0,\"reads\":0,\"slow\":0,\"syncs\":0,\"total_ms\":0,\"writes\":0}],\
    \"elections\":0,\"epoch\":0,\"heard_ms\":[null,null,null],\"leader\":null,\"monitors\":3,\"ms\":1002,\"phase\":\"unknown\",\"quorum\":0,\"rank\":0,\
    \"received\":[0,0,0,0,0,0,0,0,0,0,0,0,0,0,0,0,0,0,0,0,0,0,0,0,0,0],\"refused\":0,\
    \"sent\":[0,0,0,0,0,0,0,0,0,0,0,0,0,0,0,0,0,0,0,0,0,0,0,0,0,0],\"source\":null,\"unkept\":0,\"version\":0}
> next
idle, 1 receives, 5 ms
> next
idle, 1 receives, 5 ms
> next
idle, 1 receives, 5 ms
client 7 [050102030405060708] {\"asked_ms\":[null,null,null],\"disks\":[\
    {\"buckets\":[0,0,0,0,0,0,0,0,0,0,0,0,0,0,0,0],\"bytes_read\":0,\"bytes_written\":0,\"greatest_ms\":0,\"length\":0,\"reads\":0,\"slow\":0,\"syncs\":0,\"total_ms\":0,\"writes\":0},\
    {\"buckets\":[0,0,0,0,0,0,0,0,0,0,0,0,0,0,0,0],\"bytes_read\":0,\"bytes_written\":0,\"greatest_ms\":0,\"length\":0,\"reads\":0,\"slow\":0,\"syncs\":0,\"total_ms\":0,\"writes\":0}],\
    \"elections\":0,\"epoch\":0,\"heard_ms\":[null,null,null],\"leader\":null,\"monitors\":3,\"ms\":2000,\"phase\":\"unknown\",\"quorum\":0,\"rank\":0,\
    \"received\":[0,0,0,0,0,0,0,0,0,0,0,0,0,0,0,0,0,0,0,0,0,0,0,0,0,0],\"refused\":0,\
    \"sent\":[0,0,0,0,0,0,0,0,0,0,0,0,0,0,0,0,0,0,0,0,0,0,0,0,0,0],\"source\":null,\"unkept\":0,\"version\":0}
> next
idle, 1 receives, 5 ms
> next
idle, 1 receives, 5 ms
client 8 [050102030405060708] {\"asked_ms\":[null,null,null],\"disks\":[\
    {\"buckets\":[0,0,0,0,0,0,0,0,0,0,0,0,0,0,0,0],\"bytes_read\":0,\"bytes_written\":0,\"greatest_ms\":0,\"length\":0,\"reads\":0,\"slow\":0,\"syncs\":0,\"total_ms\":0,\"writes\":0},\
    {\"buckets\":[0,0,0,0,0,0,0,0,0,0,0,0,0,0,0,0],\"bytes_read\":0,\"bytes_written\":0,\"greatest_ms\":0,\"length\":0,\"reads\":0,\"slow\":0,\"syncs\":0,\"total_ms\":0,\"writes\":0}],\
    \"elections\":0,\"epoch\":0,\"heard_ms\":[null,null,null],\"leader\":null,\"monitors\":3,\"ms\":2002,\"phase\":\"unknown\",\"quorum\":0,\"rank\":0,\
    \"received\":[0,0,0,0,0,0,0,0,0,0,0,0,0,0,0,0,0,0,0,0,0,0,0,0,0,0],\"refused\":0,\
    \"sent\":[0,0,0,0,0,0,0,0,0,0,0,0,0,0,0,0,0,0,0,0,0,0,0,0,0,0],\"source\":null,\"unkept\":0,\"version\":0}
> next
idle, 1 receives, 5 ms
client 7 [050102030405060708] {\"asked_ms\":[null,null,null],\"disks\":[\
    {\"buckets\":[0,0,0,0,0,0,0,0,0,0,0,0,0,0,0,0],\"bytes_read\":0,\"bytes_written\":0,\"greatest_ms\":0,\"length\":0,\"reads\":0,\"slow\":0,\"syncs\":0,\"total_ms\":0,\"writes\":0},\
    {\"buckets\":[0,0,0,0,0,0,0,0,0,0,0,0,0,0,0,0],\"bytes_read\":0,\"bytes_written\":0,\"greatest_ms\":0,\"length\":0,\"reads\":0,\"slow\":0,\"syncs\":0,\"total_ms\":0,\"writes\":0}],\
    \"elections\":0,\"epoch\":0,\"heard_ms\":[null,null,null],\"leader\":null,\"monitors\":3,\"ms\":5,\"phase\":\"unknown\",\"quorum\":0,\"rank\":0,\
    \"received\":[0,0,0,0,0,0,0,0,0,0,0,0,0,0,0,0,0,0,0,0,0,0,0,0,0,0],\"refused\":0,\
    \"sent\":[0,0,0,0,0,0,0,0,0,0,0,0,0,0,0,0,0,0,0,0,0,0,0,0,0,0],\"source\":null,\"unkept\":0,\"version\":0}
";

/// A request that is cut at each byte, is too long, or has another first byte, is not answered.
pub const FAULTY: &str = "\
> watched
> from 1 client 7 -
> from 1 client 7 05
> from 1 client 7 0501
> from 1 client 7 050102
> from 1 client 7 05010203
> from 1 client 7 0501020304
> from 1 client 7 050102030405
> from 1 client 7 05010203040506
> from 1 client 7 0501020304050607
> from 1 client 7 05010203040506070809
> from 1 client 7 040102030405060708
> from 1 client 7 060102030405060708
> clock 1000 2000 3000 4000 5000 6000 7000 8000 9000 10000 11000 12000
> next
, 1 receives, 5 ms
> next
idle, 1 receives, 5 ms
> next
idle, 1 receives, 5 ms
> next
idle, 1 receives, 5 ms
> next
idle, 1 receives, 5 ms
> next
idle, 1 receives, 5 ms
> next
idle, 1 receives, 5 ms
> next
idle, 1 receives, 5 ms
> next
idle, 1 receives, 5 ms
> next
idle, 1 receives, 5 ms
> next
040102030405060708, 1 receives, 5 ms
> next
060102030405060708, 1 receives, 5 ms
";

/// A monitor is not answered.
pub const OF_MONITORS: &str = "\
> watched
> from 1 monitor 1 050102030405060708
> from 1 monitor 1 0104010306
> clock 1000 2000
> next
idle, 1 receives, 5 ms
> next
0104010306, 1 receives, 5 ms
";

/// A VICTORY of monitor 0 in epoch 4 with the quorum 0, 1 is noted, and said in a line of 22 bytes.
pub const NOTED: &str = "\
> watched
> from 1 client 7 050102030405060708
> clock 1000
> send monitor 1 0105000304000000000000000300
monitor 1 [0105000304000000000000000300]
> next
idle, 1 receives, 5 ms
client 7 [050102030405060708] {\"asked_ms\":[null,null,null],\"disks\":[\
    {\"buckets\":[0,0,0,0,0,0,0,0,0,0,0,0,0,0,0,0],\"bytes_read\":0,\"bytes_written\":0,\"greatest_ms\":0,\"length\":0,\"reads\":0,\"slow\":0,\"syncs\":0,\"total_ms\":0,\"writes\":0},\
    {\"buckets\":[0,0,0,0,0,0,0,0,0,0,0,0,0,0,0,0],\"bytes_read\":0,\"bytes_written\":0,\"greatest_ms\":0,\"length\":0,\"reads\":0,\"slow\":0,\"syncs\":0,\"total_ms\":0,\"writes\":0}],\
    \"elections\":0,\"epoch\":4,\"heard_ms\":[null,null,null],\"leader\":0,\"monitors\":3,\"ms\":1000,\"phase\":\"collecting\",\"quorum\":3,\"rank\":0,\
    \"received\":[0,0,0,0,0,0,0,0,0,0,0,0,0,0,0,0,0,0,0,0,0,0,0,0,0,0],\"refused\":0,\
    \"sent\":[0,0,0,0,0,1,0,0,0,0,0,0,0,0,0,0,0,0,0,0,0,0,0,0,0,0],\"source\":null,\"unkept\":0,\"version\":0}
noted 22
";
