// Listings that are read and written again, and the faults of others.
use std::alloc::Global;
use std::test::Fail;
use tilt_code::{CodeFault, list, read_code};

// A code of one input and one loop.
const SMALL: &str = "tilt 1\ninput x\nloop 0 6 2 0\nr0 = port b0 0\nend\n";

// A code of two loops and a map, with numbers at their bounds.
const LARGE: &str = "tilt 1
input x
input _9
loop -4500000000000000000 4500000000000000000 1000000000001 1000000000000
map
r0 = cell
r1 = const 9223372036854775807
r2 = isnull r1
r3 = when r0 r2
end
map
r0 = null
end
r0 = port b0 -2000000000000
r1 = port b1 2000000000000
r2 = win last b1 -2000000000000 2000000000000 m1
r3 = win avg b0 -1 0 m0
r4 = const -9223372036854775808
r5 = if r0 r4 r3
r6 = not r5
end
loop 0 1 1 0
r0 = win any b2 -5 -2
r1 = ifnull r0 r0
r2 = neg r1
end
";

const LISTINGS: &[&str] = &[
    SMALL,
    LARGE,
    "tilt 1\nloop 0 1 1 0\nr0 = null\nend\n",
    "tilt 1\ninput x\nloop 0 5 1 0\nr0 = win sum b0 -5 -2\nend\n",
    "tilt 1\ninput x\nloop -2 5 1 0\nr0 = port b0 -2\nend\nloop 0 5 1 0\nr0 = win sum b1 -3 0\nend\n",
    "tilt 1\ninput x\nloop 0 8 1 0\nmap\nr0 = cell\nr1 = const 1\nr2 = add r0 r1\nend\nr0 = win max b0 -4 0 m0\nend\n",
];

// The listing, read and written again.
fn listed_again(alloc: Global, text: &str) -> Result<Vec<u8>, Fail> {
    let code = read_code(alloc, text.as_bytes())?;
    Ok(list(alloc, &code)?)
}

#[test]
fn listings_are_read_back(rt: HostRuntime) -> Result<(), Fail> {
    for text in LISTINGS {
        let listed = listed_again(rt.alloc(), text)?;
        assert_eq!(rt; listed.as_slice(), text.as_bytes(), "at {text}");
    }
    Ok(())
}

// The fault of a text.
fn fault_of(alloc: Global, text: &[u8]) -> Option<CodeFault> {
    read_code(alloc, text).err()
}

// Texts, and the line that is reported.
const FAULTS: &[(&str, u64)] = &[
    ("tilt 2\n", 1),
    ("tilt 1\r\n", 1),
    ("input x\n", 1),
    ("tilt 1\nend\n", 2),
    ("tilt 1\ninput x\ninput x\n", 3),
    ("tilt 1\ninput t\n", 2),
    ("tilt 1\ninput 1\n", 2),
    ("tilt 1\nloop 0 0 1 0\n", 2),
    ("tilt 1\nloop 6 0 1 0\n", 2),
    ("tilt 1\nloop 0 6 0 0\n", 2),
    ("tilt 1\nloop 0 6 2 2\n", 2),
    ("tilt 1\nloop 0 6 2 -1\n", 2),
    ("tilt 1\nloop 0 6 1000000000002 0\n", 2),
    ("tilt 1\nloop -4500000000000000001 6 1 0\n", 2),
    ("tilt 1\nloop 0 4500000000000000001 1 0\n", 2),
    ("tilt 1\nloop 0 6 1 0\nend\n", 3),
    ("tilt 1\nloop 0 6 1 0\nmap\nend\n", 4),
    ("tilt 1\nloop 0 6 1 0\nr0 = null\nmap\n", 4),
    ("tilt 1\nloop 0 6 1 0\nmap\nr0 = port b0 0\n", 4),
    ("tilt 1\nloop 0 6 1 0\nmap\nr0 = win sum b0 0 1\n", 4),
    ("tilt 1\nloop 0 6 1 0\nr0 = null\nend\ninput x\n", 5),
    ("tilt 1\nloop 0 6 1 0\nr0 = null\nend\nx", 5),
    ("tilt 1\nloop 0 6 1 0\nr0 = null\nend\n\n", 5),
    ("tilt 1\nloop 0 6 1 0\nr0 = neg r0\nr2 = null\n", 4),
];

#[test]
fn the_first_fault_is_told(rt: HostRuntime) -> Result<(), Fail> {
    for (text, line) in FAULTS {
        let fault = fault_of(rt.alloc(), text.as_bytes());
        let want = CodeFault::BadCode { line: *line };
        assert_eq!(rt; fault, Some(want), "at {text}");
    }
    Ok(())
}

// Adds the line of an input with the name of this number.
fn push_input(alloc: Global, text: &mut String, number: u32) -> Result<(), Fail> {
    let line = format!(in alloc; "input x{number}\n")?;
    text.push_str(line.as_str())?;
    Ok(())
}

// The title and so many inputs with names of their own, and then one with the name of that number.
fn inputs_and(alloc: Global, count: u32, again: u32) -> Result<String, Fail> {
    let mut text = String::from_str(alloc, "tilt 1\n")?;
    for number in 0..count {
        push_input(alloc, &mut text, number)?;
    }
    push_input(alloc, &mut text, again)?;
    Ok(text)
}

#[test]
fn a_name_that_stands_twice_is_told_among_many(rt: HostRuntime) -> Result<(), Fail> {
    for (again, line) in [(0, 302), (150, 302), (299, 302), (300, 303)] {
        let text = inputs_and(rt.alloc(), 300, again)?;
        let fault = fault_of(rt.alloc(), text.as_bytes());
        assert_eq!(rt; fault, Some(CodeFault::BadCode { line }), "at {again}");
    }
    Ok(())
}

// The fault of the small code with its instruction replaced.
fn fault_with(alloc: Global, step: &str) -> Result<Option<CodeFault>, Fail> {
    let text = format!(in alloc; "tilt 1\ninput x\nloop 0 6 2 0\n{step}\nend\n")?;
    Ok(fault_of(alloc, text.as_bytes()))
}

const MISSPELLED: &[&str] = &[
    "r1 = port b0 0",
    "r0 = cell",
    "r0 = port b0 2000000000001",
    "r0 = port b0 -2000000000001",
    "r0 = port b4294967296 0",
    "r0 = port x 0",
    "r0 = win sum b0 0 0",
    "r0 = win sum b0 1 0",
    "r0 = win sum b0 -2000000000001 0",
    "r0 = win sum b0 0 2000000000001",
    "r0 = win sum b0 0 1 m4294967296",
    "r0 = win and b0 0 1",
    "r0 = const 9223372036854775808",
    "r0 = const -9223372036854775809",
    "r0 = const +1",
    "r0 = const 01",
    "r0 = null ",
    "r0 = null null",
    "r0  = null",
    "r0 null",
    " r0 = null",
    "r0 = null\r",
    "r0 = Null",
    "R0 = null",
    "r0 = add r0",
    "",
];

#[test]
fn instructions_are_spelled_in_one_way(rt: HostRuntime) -> Result<(), Fail> {
    for step in MISSPELLED {
        let fault = fault_with(rt.alloc(), step)?;
        assert_eq!(rt; fault, Some(CodeFault::BadCode { line: 4 }), "at {step}");
    }
    Ok(())
}

// Instructions, and the loop and the line that are reported.
const BAD_REFERENCES: &[(&str, u64, u64)] = &[
    ("r0 = neg r0", 1, 4),
    ("r0 = port b1 0", 1, 4),
    ("r0 = port b4294967295 0", 1, 4),
    ("r0 = win sum b0 0 1 m0", 1, 4),
    ("r0 = null\nr1 = add r0 r1\nr2 = neg r9", 1, 5),
    ("map\nr0 = cell\nr1 = if r0 r0 r1\nend\nr0 = null", 1, 6),
    ("map\nr0 = cell\nend\nr0 = win sum b0 0 1 m1", 1, 7),
    ("r0 = null\nend\nloop 0 6 1 0\nr0 = port b2 0", 2, 7),
    (
        "map\nr0 = cell\nend\nr0 = null\nend\nloop 0 6 1 0\nr0 = win sum b0 0 1 m0",
        2,
        10,
    ),
];

#[test]
fn the_first_bad_reference_is_told(rt: HostRuntime) -> Result<(), Fail> {
    for (step, in_loop, line) in BAD_REFERENCES {
        let fault = fault_with(rt.alloc(), step)?;
        let want = CodeFault::BadReference {
            in_loop: *in_loop,
            line: *line,
        };
        assert_eq!(rt; fault, Some(want), "at {step}");
    }
    Ok(())
}

// The number of the line that the end of the text is in.
fn last_line(text: &[u8]) -> u64 {
    let mut line = 1_u64;
    for byte in text {
        if *byte == b'\n' {
            line = line.saturating_add(1);
        }
    }
    line
}

#[test]
fn a_text_that_is_cut_is_bad_where_it_ends(rt: HostRuntime) -> Result<(), Fail> {
    let text = SMALL.as_bytes();
    for length in 0..text.len() {
        let prefix = &text[..length];
        let line = last_line(prefix);
        let fault = fault_of(rt.alloc(), prefix);
        assert_eq!(rt; fault, Some(CodeFault::BadCode { line }), "at {length}");
    }
    Ok(())
}
