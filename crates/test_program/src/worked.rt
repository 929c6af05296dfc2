//! Scripts, and what each of their commands is answered.

use crate::running::answered;
use feed_files::NoFiles;
use std::test::Fail;

const WORKED: &str = r#"
# refused_feeds: A feed's first fault is reported with its byte, and nothing changes.
site 1 => ok; take 1 4d4644310100000000000000030001000000000000000300020000000061 => refused feed 4 unlawful 3;
take 1 4d4644310200 => refused feed 4 cut; take 1 4d46443109 => refused feed 4 kind;
take 1 4d46 => refused feed 0 magic; take 1 00 => refused feed 0 magic;
take 1 4d46443101000000000000000100010000000000000000000000000000610100000000000000000001000000000000000000000000000061 => refused feed 30 unlawful 1;
take 1 4d4644310100000000000000010000000000000000000000000000000061 => refused feed 4 unlawful 2;
take 1 4d4644310100000000000000010001000000000000000000000000000009 => refused feed 4 unlawful 4;
take 1 4d46443103000000000000000100010600000090 => refused feed 4 unlawful 5;
take 1 4d4644310300000000000000010001010000000b => refused feed 4 unlawful 6; feed 1 => feed 4d464432;
take 2 09 => refused site; take 1 4D464431 => ok new 0 known 0;
take 1 4d46443101000000000000000100010000000000000000000000000000610100000000000000010001000000000000000000000000000061 => ok new 1 known 1;
take 1 4D4644310100000000000000010001000000000000000000000000000061 => ok new 0 known 1; show 1 => copy r"a";

# full_clock: At the greatest counter no edit is made.
site 1 => ok; take 1 4d4644310140000000000000000002000000000000000000000000000071 => ok new 1 known 0;
show 1 => copy r"q"; insert 1 0 r"a" => refused clock; insert 1 2 r"a" => refused place;
insert 1 0 i" " => refused value; show 1 => copy r"q";

# stopped_at_the_last_counter: One symbol takes the greatest counter and stands; the next is refused.
site 1 => ok; take 1 4d464431013fffffffffffffff0002000000000000000000000000000071 => ok new 1 known 0;
insert 1 0 r"ab" => stopped 1 clock; show 1 => copy r"aq"; insert 1 0 r"ab" => refused clock; show 1 => copy r"aq";

# ranges_are_sent: A range counts in the order of the operations held, and the sites are looked up before the place.
site 1 => ok; site 2 => ok; insert 1 0 r"abc" => ok 1.1..3.1; send 1 2 3..2 => refused place;
send 1 2 2..4 => refused place; send 1 3 3..2 => refused site; send 3 1 3..2 => refused site;
send 1 2 1..1 => ok new 0 known 0; send 1 2 3..3 => ok new 0 known 0; send 1 2 1..2 => ok new 1 known 0;
show 2 => copy; send 1 2 0..2 => ok new 1 known 1; show 2 => copy r"ab"; send 1 2 0..3 => ok new 1 known 2;
show 2 => copy r"abc"; send 2 2 => ok new 0 known 3;

# merges_of_sites: A site merges another, or itself; the sites are looked up in written order.
site 1 => ok; site 2 => ok; insert 2 0 r"ab" => ok 1.2..2.2; merge 1 2 => ok new 2 known 0;
merge 1 2 => ok new 0 known 2; merge 2 2 => ok new 0 known 2; show 1 => copy r"ab"; merge 1 3 => refused site;
merge 3 1 => refused site; merge 0 1 => refused site;

# concurrent_delete_and_insert: A symbol that was inserted after one deleted elsewhere stays.
site 1 => ok; site 2 => ok; take 1 4d4644310100000000000000010001000000000000000000000000000061 => ok new 1 known 0;
take 2 4d4644310100000000000000010001000000000000000000000000000061 => ok new 1 known 0; delete 1 0 => ok 2.1;
insert 2 1 r"b" => ok 2.2; send 1 2 => ok new 1 known 1; send 2 1 => ok new 1 known 2; show 1 => copy r"b";
show 2 => copy r"b";

# merge_counts: A merge counts what was new and what was known, and afterwards both feeds are equal.
site 1 => ok; site 2 => ok; take 1 4d4644310100000000000000010001000000000000000000000000000061 => ok new 1 known 0;
take 2 4d4644310100000000000000010001000000000000000000000000000061 => ok new 1 known 0; delete 1 0 => ok 2.1;
insert 2 1 r"b" => ok 2.2; merge 1 2 => ok new 1 known 1; merge 1 2 => ok new 0 known 2;
merge 2 1 => ok new 1 known 2;
feed 1 => feed 4d46443201000000000000000100010000000000000000000000000000610200000000000000020001000000000000000100010100000000000000020002000000000000000100010000000062;
feed 2 => feed 4d46443201000000000000000100010000000000000000000000000000610200000000000000020001000000000000000100010100000000000000020002000000000000000100010000000062;

# restarts_and_edits: A site is opened again as it was.
site 1 => ok; insert 1 0 r"ab" => ok 1.1..2.1; restart 1 => ok; show 1 => copy r"ab"; delete 1 1 => ok 3.1;
delete 1 1 => refused place; delete 1 0 => ok 4.1; delete 1 0 => refused place; show 1 => copy; restart 1 => ok;
show 1 => copy; set 1 measure 144 => ok 5.1; restart 1 => ok;
feed 1 => feed 4d464432040000000000000001000100000000000000000000020000000061000000006202000000000000000300010000000000000002000102000000000000000400010000000000000001000103000000000000000500010100000090;
restart 2 => refused site; restart 0 => refused site;

# refused_settings: A setting's key is read with the line, and its value is judged after the site.
site 1 => ok; set 1 measure 11 => refused value; set 1 measure 721 => refused value;
set 1 tight 15 => refused value; set 1 loose 241 => refused value; set 1 case 0 => refused value;
set 1 wedge 65536 => refused value; set 1 measure 4294967295 => refused value;
set 1 measure 4294967296 => refused command; set 1 measure 00000000144 => refused command;
set 1 Measure 144 => refused command; set 9 breadth 144 => refused command; set 1 measure => refused command;
set 1 measure 144  => refused command; set 1 measure -1 => refused command; set 9 measure 11 => refused site;
set 9 measure 144 => refused site; feed 1 => feed 4d464432; set 1 measure 0000000012 => ok 1.1;
set 1 case 65535 => ok 2.1;

# no_such_sites: A number that no site may have, or none has, is no site in any command but that which adds one.
site 1 => ok; insert 0 0 r"a" => refused site; insert 2 0 r"a" => refused site; insert 65536 0 r"a" => refused site;
insert 65537 0 r"a" => refused site; insert 4294967295 0 r"a" => refused site; delete 0 0 => refused site;
delete 2 0 => refused site; delete 65536 0 => refused site; delete 65537 0 => refused site;
delete 4294967295 0 => refused site; set 0 tight 38 => refused site; set 2 tight 38 => refused site;
set 65536 tight 38 => refused site; set 65537 tight 38 => refused site; set 4294967295 tight 38 => refused site;
take 0 4d464431 => refused site; take 2 4d464431 => refused site; take 65536 4d464431 => refused site;
take 65537 4d464431 => refused site; take 4294967295 4d464431 => refused site; send 0 1 => refused site;
send 2 1 => refused site; send 65536 1 => refused site; send 65537 1 => refused site;
send 4294967295 1 => refused site; send 1 0 => refused site; send 1 2 => refused site; send 1 65536 => refused site;
send 1 65537 => refused site; send 1 4294967295 => refused site; send 1 0 1..0 => refused site;
send 1 2 1..0 => refused site; send 1 65536 1..0 => refused site; send 1 65537 1..0 => refused site;
send 1 4294967295 1..0 => refused site; merge 0 1 => refused site; merge 2 1 => refused site;
merge 65536 1 => refused site; merge 65537 1 => refused site; merge 4294967295 1 => refused site;
merge 1 0 => refused site; merge 1 2 => refused site; merge 1 65536 => refused site; merge 1 65537 => refused site;
merge 1 4294967295 => refused site; show 0 => refused site; show 2 => refused site; show 65536 => refused site;
show 65537 => refused site; show 4294967295 => refused site; feed 0 => refused site; feed 2 => refused site;
feed 65536 => refused site; feed 65537 => refused site; feed 4294967295 => refused site; restart 0 => refused site;
restart 2 => refused site; restart 65536 => refused site; restart 65537 => refused site;
restart 4294967295 => refused site; faults 0 => refused site; faults 2 => refused site;
faults 65536 => refused site; faults 65537 => refused site; faults 4294967295 => refused site;
settings 0 => refused site; settings 2 => refused site; settings 65536 => refused site;
settings 65537 => refused site; settings 4294967295 => refused site;

# settings_by_stamp: The set with the greatest stamp counts, whatever order they came in.
site 1 => ok; settings 1 => settings measure=- tight=- loose=- case=- wedge=-;
take 1 4d46443103000000000000000500020100000090 => ok new 1 known 0;
take 1 4d46443103000000000000000500010100000078 => ok new 1 known 0;
settings 1 => settings measure=144 tight=- loose=- case=- wedge=-; set 1 tight 38 => ok 6.1;
set 1 loose 150 => ok 7.1; set 1 case 1 => ok 8.1; set 1 wedge 5 => ok 9.1;
settings 1 => settings measure=144 tight=38 loose=150 case=1 wedge=5; set 1 tight 100 => ok 10.1;
settings 1 => settings measure=144 tight=100 loose=150 case=1 wedge=5;
take 1 4d46443103000000000000000b0003020000001003000000000000000b00030200000011 => ok new 2 known 0;
settings 1 => settings measure=144 tight=100 loose=150 case=1 wedge=5; settings 2 => refused site;
settings 65537 => refused site;

# waiting_then_live: What comes before its target waits, and is live once the target has come.
site 1 => ok; faults 1 => faults none;
take 1 4d464431020000000000000004000200000000000000030001 => ok new 1 known 0;
take 1 4d4644310100000000000000030001000000000000000200010000000063 => ok new 1 known 0;
take 1 4d4644310100000000000000020001000000000000000100010000000062 => ok new 1 known 0; show 1 => copy;
faults 1 => faults waiting 2.1, waiting 3.1, waiting 4.2;
take 1 4d4644310100000000000000010001000000000000000000000000000061 => ok new 1 known 0; show 1 => copy r"ab";
faults 1 => faults none; faults 2 => refused site;

# forked_stamp: Of a forked stamp no operation acts, whatever order they came in.
site 1 => ok; site 2 => ok; take 1 4d4644310100000000000000010001000000000000000000000000000061 => ok new 1 known 0;
take 1 4d4644310100000000000000020001000000000000000100010000000062 => ok new 1 known 0;
take 1 4d4644310100000000000000020001000000000000000100010000000078 => ok new 1 known 0;
take 1 4d4644310100000000000000030002000000000000000200010000000063 => ok new 1 known 0; show 1 => copy r"a";
faults 1 => faults forked 2.1, void 3.2;
take 2 4d4644310100000000000000030002000000000000000200010000000063 => ok new 1 known 0;
take 2 4d4644310100000000000000020001000000000000000100010000000078 => ok new 1 known 0;
take 2 4d4644310100000000000000010001000000000000000000000000000061 => ok new 1 known 0;
take 2 4d4644310100000000000000020001000000000000000100010000000062 => ok new 1 known 0; show 2 => copy r"a";
faults 2 => faults forked 2.1, void 3.2; merge 1 2 => ok new 0 known 4;
"#;

#[test]
fn worked_scripts(rt: HostRuntime) -> Result<(), Fail> {
    answered(rt.alloc(), &mut NoFiles, WORKED)
}

const CORNERS: &str = "
# corners_of_copies: What is COPY, what is lawful in it, and in which order it is refused.
site 1 => ok; insert 1 0 => refused command; insert 1 0  => refused command; insert 1 0 r\"\" => refused command;
insert 1 0 r\"a\" r\"\" => refused command; insert 1 0 r\"a\"i\"b\" => refused command;
insert 1 0 r\"a\"  i\"b\" => refused command; insert 1 0 r\"a\"  => refused command;
insert 1 0 r\"a => refused command; insert 1 0 b\"a\" => refused command; insert 1 0 R\"a\" => refused command;
insert 1 0 r\"\\t\" => refused command; insert 1 0 r\"a\\ => refused command; insert 9 9 i\"\" => refused command;
insert 9 9 r\"\t\" => refused site; insert 1 9 r\"\t\" => refused place; insert 1 0 r\"\t\" => refused value;
insert 1 0 r\"a\u{0}\" => refused value; insert 1 0 r\"\u{7f}\" => refused value;
insert 1 0 r\"a\rb\" => refused value; insert 1 0 r\"\u{85}\" => refused value;
insert 1 0 s\"\\n\" => refused value; insert 1 0 r\"ab\" i\" \" => refused value; show 1 => copy;
insert 1 0 r\"a\" r\"b\" r\"c\" => ok 1.1..3.1; show 1 => copy r\"abc\";
insert 1 3 i\"d\" s\"e\" s\"f\" => ok 4.1..6.1; show 1 => copy r\"abc\" i\"d\" s\"ef\";
insert 1 1 r\" \\\"\\\\\\n\" => ok 7.1..10.1; show 1 => copy r\"a \\\"\\\\\\nbc\" i\"d\" s\"ef\"; site 3 => ok;
insert 3 0 r\"a \\\"\\\\\\nbc\" i\"d\" s\"ef\" => ok 1.3..10.3; show 3 => copy r\"a \\\"\\\\\\nbc\" i\"d\" s\"ef\";
site 2 => ok; insert 2 0 r\"\u{a0}\u{2028}\u{feff}\u{ffff}\u{10ffff}\" => ok 1.2..5.2;
show 2 => copy r\"\u{a0}\u{2028}\u{feff}\u{ffff}\u{10ffff}\";

# corners_of_words: Words are separated by one space, and numbers are ASCII digits.
site \u{661} => refused command; site 1\u{a0} => refused command; SITE 1 => refused command;
site 1 2 => refused command; site 1 => ok; show 1 1 => refused command; send 1 => refused command;
send 1 1 0..0  => refused command; send 1 1 0.0 => refused command; send 1 1 0...0 => refused command;
send 1 1 .. => refused command; send 1 1 00..0 => ok new 0 known 0; take 1 => refused command;
take 1  => refused command; take 1 4d464 => refused command; take 1 4d46443g => refused command;
take 1 4d464431  => refused command; take 9 4d4 => refused command; send 9 1 0..x => refused command;
jump => refused command; faults 1 1 => refused command; site 100000000000000000000 => refused command;
show 18446744073709551617 => refused command;
";

#[test]
fn corners(rt: HostRuntime) -> Result<(), Fail> {
    answered(rt.alloc(), &mut NoFiles, CORNERS)
}
