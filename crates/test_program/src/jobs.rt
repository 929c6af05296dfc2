//! Scripts of jobs: ribbons, and what they cast.

use crate::running::answered;
use feed_files::trial::TrialFiles;
use feed_files::{FileRefusal, Files, MAX_FILE};
use std::alloc::Allocator;
use std::test::Fail;

const WEDGE: &[u8] =
    b"wedge = 5\nset_q = 48\npica = \"sixth\"\nunits = [5, 6, 7, 8, 9, 9, 9, 10, 10, 11, 12, 13, 14, 15, 18]\n";

const NARROW: &[u8] =
    b"wedge = 5\nset_q = 20\npica = \"sixth\"\nunits = [4, 6, 7, 8, 9, 9, 9, 10, 10, 11, 12, 13, 14, 15, 18]\n";

const CASE: &[u8] = b"case = 1\nspace = \"G1\"\nfill = [\"O15\", \"A5\"]\n";

const ONE_FILL: &[u8] = b"case = 1\nspace = \"G1\"\nfill = [\"O15\"]\n";

const OTHER_ORDER: &[u8] = b"case = 1\nspace = \"G1\"\nfill = [\"A5\", \"O15\"]\n";

#[rattlefmt::skip]
const ROWS: &[u8] =
    b"rows = [\n\
 [\".\",\"\",\"\",\"\",\"\",\"\",\"\",\"\",\"\",\"\",\"\",\"\",\"\",\"\",\"\"],\n\
 [\"\",\"\",\"\",\"\",\"\",\"\",\"\",\"\",\"\",\"\",\"\",\"\",\"\",\"\",\"\"],\n\
 [\"\",\"\",\"\",\"\",\"\",\"\",\"\",\"\",\"\",\"\",\"\",\"\",\"\",\"\",\"\"],\n\
 [\"t\",\"\",\"\",\"\",\"\",\"\",\"\",\"\",\"\",\"\",\"\",\"\",\"\",\"\",\"\"],\n\
 [\"\",\"a\",\"i:a\",\"\",\"\",\"\",\"\",\"\",\"\",\"\",\"\",\"\",\"\",\"\",\"\"],\n\
 [\"\",\"\",\"\",\"\",\"\",\"\",\"\",\"\",\"\",\"\",\"\",\"\",\"\",\"\",\"\"],\n\
 [\"\",\"\",\"\",\"\",\"\",\"\",\"\",\"\",\"\",\"\",\"\",\"\",\"\",\"\",\"\"],\n\
 [\"n\",\"\",\"\",\"\",\"\",\"\",\"\",\"\",\"\",\"\",\"\",\"\",\"\",\"\",\"\"],\n\
 [\"\",\"\",\"\",\"\",\"\",\"\",\"\",\"\",\"\",\"\",\"\",\"\",\"\",\"\",\"\"],\n\
 [\"\",\"\",\"\",\"\",\"\",\"\",\"\",\"\",\"\",\"\",\"\",\"\",\"\",\"\",\"\"],\n\
 [\"\",\"\",\"\",\"\",\"\",\"\",\"\",\"\",\"\",\"\",\"\",\"\",\"\",\"\",\"\"],\n\
 [\"\",\"\",\"\",\"\",\"\",\"\",\"\",\"\",\"\",\"\",\"\",\"\",\"\",\"\",\"\"],\n\
 [\"\",\"\",\"\",\"\",\"\",\"\",\"\",\"\",\"\",\"\",\"\",\"\",\"\",\"\",\"\"],\n\
 [\"m\",\"\",\"\",\"\",\"\",\"\",\"\",\"\",\"\",\"\",\"\",\"\",\"\",\"\",\"\"],\n\
 [\"M\",\"s:M\",\"\",\"\",\"\",\"\",\"\",\"\",\"\",\"\",\"\",\"\",\"\",\"\",\"\"]\n]\n";

const NO_FILL: &[u8] = b"case = 1\nspace = \"G1\"\n";

const SET_OF_19: &[u8] =
    b"wedge = 5\nset_q = 19\npica = \"sixth\"\nunits = [5, 6, 7, 8, 9, 9, 9, 10, 10, 11, 12, 13, 14, 15, 18]\n";

/// A few files by name, and how often their device has failed.
#[derive(Drop)]
struct Shelf {
    failures: u64,
}

/// The parts of a file, one after the other.
fn parts(name: &str) -> Result<(&'static [u8], &'static [u8]), FileRefusal> {
    match name {
        "c" => Ok((CASE, ROWS)),
        "one-fill" => Ok((ONE_FILL, ROWS)),
        "other-order" => Ok((OTHER_ORDER, ROWS)),
        "w" => Ok((WEDGE, b"")),
        "narrow" => Ok((NARROW, b"")),
        "range" => Ok((b"wedge = 5\nset_q = 19\n", b"")),
        "no-fill" => Ok((NO_FILL, ROWS)),
        "set-of-19" => Ok((SET_OF_19, b"")),
        "broken" => Ok((b"wedge =", b"")),
        "large" => Err(FileRefusal::Large),
        _ => Err(FileRefusal::Missing),
    }
}

impl Files for Shelf {
    ghost use Rattle.feed_files.specs.Files.{Free, Unknown, shelf};

    ghost shelf = { λ s. shelf (λ _. Unknown) s.failures Free };

    fn failures(&self) -> u64 {
        self.failures
    }

    fn hold(&mut self, _name: &str) -> Result<(), FileRefusal> {
        Err(FileRefusal::Missing)
    }

    fn read<A: Allocator + Copy>(
        &mut self,
        alloc: A,
        name: &str,
    ) -> Result<Vec<u8, A>, FileRefusal> {
        if name == "device" {
            self.failures = self.failures.saturating_add(1);
            return Err(FileRefusal::Device);
        }
        let (prefix, back) = match parts(name) {
            Ok(parts) => parts,
            Err(FileRefusal::Large) => return Err(FileRefusal::Large),
            Err(_) => return Err(FileRefusal::Missing),
        };
        let mut bytes = Vec::new(alloc);
        if bytes.extend_from_slice(prefix).is_err() || bytes.extend_from_slice(back).is_err() {
            return Err(FileRefusal::NoMemory);
        }
        if bytes.len() > MAX_FILE {
            return Err(FileRefusal::Large);
        }
        Ok(bytes)
    }

    fn write_new(&mut self, _name: &str, _bytes: &[u8]) -> Result<(), FileRefusal> {
        Err(FileRefusal::Missing)
    }

    fn rename(&mut self, _from: &str, _to: &str) -> Result<(), FileRefusal> {
        Err(FileRefusal::Missing)
    }
}

const JOBS: &str = r#"
# empty_copy_ribbon: An empty copy has the head row alone.
site 1 => ok; set 1 measure 120 => ok 1.1; set 1 tight 38 => ok 2.1; set 1 loose 150 => ok 3.1;
set 1 case 1 => ok 4.1; set 1 wedge 5 => ok 5.1; ribbon 1 c w => ribbon 4d5242310000000100000206;
cast 1 c w => lines 0; show 1 => copy; settings 1 => settings measure=120 tight=38 loose=150 case=1 wedge=5;

# empty_paragraph_ribbon: One empty paragraph is one line with an added space and fills.
site 1 => ok; set 1 measure 120 => ok 1.1; set 1 tight 38 => ok 2.1; set 1 loose 150 => ok 3.1;
set 1 case 1 => ok 4.1; set 1 wedge 5 => ok 5.1; insert 1 0 r"\n" => ok 6.1;
ribbon 1 c w => ribbon 4d5242310000000e0000020601010001000000000000000000000000000000000000000000000000000000000000000000000000400010000000020200000406;
cast 1 c w => lines 1 11/2159952; show 1 => copy r"\n";

# widest_lines: Lines that are as wide as may be, and one that is wider.
site 1 => ok; set 1 measure 120 => ok 1.1; set 1 tight 38 => ok 2.1; set 1 loose 150 => ok 3.1;
set 1 case 1 => ok 4.1; set 1 wedge 5 => ok 5.1; insert 1 0 r"nnnnnnnnnnnnnnnnnn" => ok 6.1..23.1;
ribbon 1 c w => no ribbon: too wide 1; cast 1 c w => no ribbon: too wide 1; delete 1 17 => ok 24.1;
delete 1 16 => ok 25.1; insert 1 16 r"m" => ok 26.1; set 1 tight 53 => ok 27.1; cast 1 c w => lines 1 18/2160000;
delete 1 16 => ok 28.1; insert 1 16 r"tt" => ok 29.1..30.1; set 1 tight 16 => ok 31.1;
cast 1 c w => lines 1 19/2159688;

# two_lines: A paragraph of two lines, and spaces that would be too loose.
site 1 => ok; set 1 measure 120 => ok 1.1; set 1 tight 38 => ok 2.1; set 1 loose 150 => ok 3.1;
set 1 case 1 => ok 4.1; set 1 wedge 5 => ok 5.1; insert 1 0 r"nnn nnn nnn nnn nnn nnn" => ok 6.1..28.1;
cast 1 c w => lines 2 19/2159232 12/2159664; set 1 loose 60 => ok 29.1; ribbon 1 c w => no ribbon: too loose 1;

# cannot_fill: Spaces and fills that do not take up the rest of a line.
site 1 => ok; set 1 measure 120 => ok 1.1; set 1 tight 38 => ok 2.1; set 1 loose 150 => ok 3.1;
set 1 case 1 => ok 4.1; set 1 wedge 5 => ok 5.1; insert 1 0 r"\n" => ok 6.1;
ribbon 1 one-fill w => no ribbon: cannot fill 1; set 1 tight 128 => ok 7.1;
ribbon 1 c w => no ribbon: cannot fill 1; set 1 tight 127 => ok 8.1;
ribbon 1 c w => ribbon 4d5242310000000e0000020601010001000000000000000000000000000000000000000000000000000000000000000000000000400010000000020200000406;

# space_vanishes: A space that is not wider than nothing.
site 1 => ok; set 1 measure 120 => ok 1.1; set 1 tight 38 => ok 2.1; set 1 loose 150 => ok 3.1;
set 1 case 1 => ok 4.1; set 1 wedge 5 => ok 5.1; set 1 tight 16 => ok 6.1;
ribbon 1 c narrow => no ribbon: space vanishes; cast 1 c narrow => no ribbon: space vanishes;

# job_faults: The first fault of a job, or each symbol that the case lacks.
site 1 => ok; ribbon 1 c w => no ribbon: missing measure; set 1 measure 120 => ok 1.1;
ribbon 1 c w => no ribbon: missing tight; set 1 tight 38 => ok 2.1; ribbon 1 c w => no ribbon: missing loose;
set 1 loose 150 => ok 3.1; ribbon 1 c w => no ribbon: missing case; set 1 case 1 => ok 4.1;
cast 1 c w => no ribbon: missing wedge; set 1 wedge 5 => ok 5.1; insert 1 0 r"aqnz" => ok 6.1..9.1;
ribbon 1 c w => no ribbon: no matrix 1, no matrix 3; cast 1 c w => no ribbon: no matrix 1, no matrix 3;
ribbon 1 other-order w => no ribbon: fill order; set 1 tight 100 => ok 10.1; set 1 loose 60 => ok 11.1;
ribbon 1 c w => no ribbon: crossed; set 1 wedge 6 => ok 12.1; ribbon 1 c w => no ribbon: other wedge;
set 1 case 2 => ok 13.1; ribbon 1 c w => no ribbon: other case;

# refused_files: The case file, its reading, the wedge file, its reading: the first refusal is the answer, after the site.
site 1 => ok; ribbon 1 none.toml w => refused file missing; cast 1 none.toml none.toml => refused file missing;
ribbon 1 c none.toml => refused file missing; ribbon 9 none.toml none.toml => refused site;
cast 0 none.toml none.toml => refused site; ribbon 1 broken none.toml => refused case 1;
ribbon 1 w none.toml => refused case 2; ribbon 1 c broken => refused wedge 1; cast 1 c c => refused wedge 2;
cast 1 c range => refused wedge 3; ribbon 1 large w => refused file large; ribbon 1 c large => refused file large;
ribbon 1 device none.toml => refused file device; cast 1 c device => refused file device;
ribbon 1 none.toml device => refused file missing; cast 1 broken device => refused case 1;
cast 1 large device => refused file large; ribbon 1 c => refused command; ribbon 1 c  => refused command;
ribbon 1 c w w => refused command;
cast 1 ccccccccccccccccccccccccccccccccccccccccccccccccccccccccccccccccccccccccccccccccccccccccccccccccccccccccccccccccccccccccccccccccccccccccccccccccccccccccccccccccccccccccccccccccccccccccccccccccccccccccccccccccccccccccccccccccccccccccccccccccccccccccccccccc w => refused file missing;
cast 1 cccccccccccccccccccccccccccccccccccccccccccccccccccccccccccccccccccccccccccccccccccccccccccccccccccccccccccccccccccccccccccccccccccccccccccccccccccccccccccccccccccccccccccccccccccccccccccccccccccccccccccccccccccccccccccccccccccccccccccccccccccccccccccccccc w => refused command;
ribbon 1 c w => no ribbon: missing measure;

# refused_inputs: A case without fills, a wedge with too small a set, and both.
site 1 => ok; ribbon 1 no-fill w => refused case 2; cast 1 no-fill w => refused case 2;
ribbon 1 c set-of-19 => refused wedge 3; cast 1 c set-of-19 => refused wedge 3;
ribbon 1 no-fill set-of-19 => refused case 2; cast 1 no-fill set-of-19 => refused case 2;
ribbon 1 none.toml w => refused file missing; ribbon 1 c w => no ribbon: missing measure;

# case_of_its_own: The case of the named file is used, and no other.
site 1 => ok; insert 1 0 r"\n" => ok 1.1; set 1 measure 120 => ok 2.1; set 1 tight 38 => ok 3.1;
set 1 loose 150 => ok 4.1; set 1 case 1 => ok 5.1; set 1 wedge 5 => ok 6.1; cast 1 c w => lines 1 11/2159952;
cast 1 one-fill w => no ribbon: cannot fill 1; cast 1 other-order w => no ribbon: fill order;
"#;

#[test]
fn scripts_of_jobs(rt: HostRuntime) -> Result<(), Fail> {
    answered(rt.alloc(), &mut Shelf { failures: 0 }, JOBS)
}

const FAILED_READS: &str = r#"
# failed_reads: The first read fails, or the second: that command alone is refused, and nothing else.
site 1 => ok; ribbon 1 c w => refused file device; ribbon 1 c w => no ribbon: missing measure;
cast 1 c w => no ribbon: missing measure;
"#;

#[test]
fn failed_reads(rt: HostRuntime) -> Result<(), Fail> {
    let mut case = Vec::new(rt.alloc());
    case.extend_from_slice(CASE)?;
    case.extend_from_slice(ROWS)?;
    for k in 1..3u64 {
        let mut files = TrialFiles::new(rt.alloc()).failing_at_call(k);
        files.put("c", &case)?;
        files.put("w", WEDGE)?;
        answered(rt.alloc(), &mut files, FAILED_READS)?;
        assert_eq!(rt; files.failures(), 1);
    }
    Ok(())
}
