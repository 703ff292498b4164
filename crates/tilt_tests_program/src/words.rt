// What command lines are which command.
use std::alloc::Global;
use std::test::Fail;
use tilt_cli::{Bind, Command, CutBind, Upto, WordsFault, read_words};
use tilt_testing::name_text;

// The pieces of a text between bars.
fn words_of(alloc: Global, text: &str) -> Result<Vec<String>, Fail> {
    let mut words = Vec::new(alloc);
    for piece in text.split('|') {
        words.push(String::from_str(alloc, piece)?)?;
    }
    Ok(words)
}

fn show_binds(alloc: Global, binds: &[Bind]) -> Result<String, Fail> {
    let mut shown = String::new(alloc);
    for bind in binds {
        let name = name_text(&bind.name)?;
        let bind = format!(in alloc; " {name}={}", bind.file)?;
        shown.push_str(bind.as_str())?;
    }
    Ok(shown)
}

fn show_cuts(alloc: Global, cuts: &[i64]) -> Result<String, Fail> {
    let mut shown = String::new(alloc);
    for cut in cuts {
        let cut = format!(in alloc; " cut {cut}")?;
        shown.push_str(cut.as_str())?;
    }
    Ok(shown)
}

fn show_order(alloc: Global, order: &[u32]) -> Result<String, Fail> {
    let mut shown = String::new(alloc);
    for part in order {
        let part = format!(in alloc; " part {part}")?;
        shown.push_str(part.as_str())?;
    }
    Ok(shown)
}

fn show_each(alloc: Global, cuts: &[CutBind]) -> Result<String, Fail> {
    let mut shown = String::new(alloc);
    for bind in cuts {
        let name = name_text(&bind.name)?;
        let cut = format!(in alloc; " upto {name}={}", bind.cut)?;
        shown.push_str(cut.as_str())?;
    }
    Ok(shown)
}

// A cut for all, or one after another a name and its cut.
fn show_upto(alloc: Global, upto: &Upto) -> Result<String, Fail> {
    match upto {
        Upto::All(cut) => Ok(format!(in alloc; " upto {cut}")?),
        Upto::Each(cuts) => show_each(alloc, cuts),
    }
}

fn show_plain(plain: bool) -> &'static str {
    if plain { " plain" } else { "" }
}

// What most commands have: a name, a file, binds, and whether `--plain` is given.
fn show_call(
    alloc: Global,
    name: &str,
    file: &str,
    binds: &[Bind],
    plain: bool,
) -> Result<String, Fail> {
    let (binds, plain) = (show_binds(alloc, binds)?, show_plain(plain));
    Ok(format!(in alloc; "{name} {file}{binds}{plain}")?)
}

// A command as text: its file, its binds, and then its options.
fn show(alloc: Global, command: &Command) -> Result<String, Fail> {
    Ok(match command {
        Command::Run {
            query,
            binds,
            plain,
            cuts,
        } => {
            let (call, cuts) = (
                show_call(alloc, "run", query, binds, *plain)?,
                show_cuts(alloc, cuts)?,
            );
            format!(in alloc; "{call}{cuts}")?
        }
        Command::Compile { query, plain } => show_call(alloc, "compile", query, &[], *plain)?,
        Command::Exec { code, binds } => show_call(alloc, "exec", code, binds, false)?,
        Command::Explain { query } => show_call(alloc, "explain", query, &[], false)?,
        Command::Start {
            query,
            binds,
            plain,
            upto,
            save,
        } => {
            let (call, upto) = (
                show_call(alloc, "start", query, binds, *plain)?,
                show_upto(alloc, upto)?,
            );
            format!(in alloc; "{call}{upto} save {save}")?
        }
        Command::ResumeUpto {
            file,
            binds,
            plain,
            upto,
            save,
        } => {
            let (call, upto) = (
                show_call(alloc, "resume", file, binds, *plain)?,
                show_upto(alloc, upto)?,
            );
            format!(in alloc; "{call}{upto} save {save}")?
        }
        Command::ResumeEnd { file, binds, plain } => {
            let call = show_call(alloc, "resume", file, binds, *plain)?;
            format!(in alloc; "{call} end")?
        }
        Command::Pipe {
            query,
            binds,
            plain,
        } => show_call(alloc, "pipe", query, binds, *plain)?,
        Command::Watch {
            query,
            binds,
            plain,
        } => show_call(alloc, "watch", query, binds, *plain)?,
        Command::Parts {
            query,
            binds,
            plain,
            at,
            order,
        } => {
            let call = show_call(alloc, "parts", query, binds, *plain)?;
            let (at, order) = (show_cuts(alloc, at)?, show_order(alloc, order)?);
            format!(in alloc; "{call}{at}{order}")?
        }
        Command::Flow { flow, binds, plain } => show_call(alloc, "flow", flow, binds, *plain)?,
        Command::Fix {
            query,
            binds,
            plain,
            edits,
        } => {
            let call = show_call(alloc, "fix", query, binds, *plain)?;
            format!(in alloc; "{call} edits {edits}")?
        }
        Command::Try { seed, count } => format!(in alloc; "try {seed} {count}")?,
    })
}

// Words with bars between them, and the command that they are.
const COMMANDS: &[(&str, &str)] = &[
    ("run|Q", "run Q"),
    ("run|-", "run -"),
    ("run|Q|x=F|y=G|x=H", "run Q x=F y=G x=H"),
    ("run|Q|--plain|x=F|--cut|1|y=G", "run Q x=F y=G plain cut 1"),
    ("run|Q|a=b=c", "run Q a=b=c"),
    ("run|Q|x==", "run Q x=="),
    ("run|Q|x=--plain", "run Q x=--plain"),
    ("run|Q|input=F|_1=G", "run Q input=F _1=G"),
    ("run|Q|--cut|+5", "run Q cut 5"),
    ("run|Q|--cut|-0", "run Q cut 0"),
    ("run|Q|--cut|-7,5,5,0006", "run Q cut -7 cut 5 cut 5 cut 6"),
    (
        "run|Q|--cut|-4000000000000000000,4000000000000000000",
        "run Q cut -4000000000000000000 cut 4000000000000000000",
    ),
    ("compile|Q", "compile Q"),
    ("compile|Q|--plain", "compile Q plain"),
    ("exec|C|x=F", "exec C x=F"),
    ("explain|Q", "explain Q"),
    ("start|Q|x=F|--upto|5|--save|D", "start Q x=F upto 5 save D"),
    (
        "start|Q|--save|--plain|--upto|-5|--plain",
        "start Q plain upto -5 save --plain",
    ),
    (
        "resume|C|--save|C|x=F|--upto|5",
        "resume C x=F upto 5 save C",
    ),
    ("resume|C|x=F|--end|--plain", "resume C x=F plain end"),
    (
        "start|Q|--upto|x=8,y=5|--save|D",
        "start Q upto x=8 upto y=5 save D",
    ),
    (
        "resume|C|--upto|x=+8|--save|D|x=F",
        "resume C x=F upto x=8 save D",
    ),
    // The names are those of no query here: one that is reserved, and one that occurs twice.
    (
        "start|Q|--upto|input=-0,_1=007,_1=-7|--save|D",
        "start Q upto input=0 upto _1=7 upto _1=-7 save D",
    ),
    (
        "start|Q|--upto|x=-4000000000000000000,y=4000000000000000000|--save|D",
        "start Q upto x=-4000000000000000000 upto y=4000000000000000000 save D",
    ),
    ("pipe|Q|--plain|x=F", "pipe Q x=F plain"),
    ("watch|Q|x=F|--plain", "watch Q x=F plain"),
    ("parts|Q|--at|5", "parts Q cut 5"),
    (
        "parts|Q|--order|1,0,1|x=F|--at|-7,+5,0006|--plain",
        "parts Q x=F plain cut -7 cut 5 cut 6 part 1 part 0 part 1",
    ),
    (
        "parts|Q|--at|-4000000000000000000,4000000000000000000|--order|4294967295,0",
        "parts Q cut -4000000000000000000 cut 4000000000000000000 part 4294967295 part 0",
    ),
    ("flow|P", "flow P"),
    ("flow|-", "flow -"),
    ("flow|P|y=G|--plain|x=F", "flow P y=G x=F plain"),
    ("flow|flow|flow=flow", "flow flow flow=flow"),
    ("fix|Q|--edits|E", "fix Q edits E"),
    ("fix|Q|x=F|--edits|F|y=G", "fix Q x=F y=G edits F"),
    (
        "fix|Q|--edits|--plain|x=F|--plain",
        "fix Q x=F plain edits --plain",
    ),
    ("try|0|0", "try 0 0"),
    ("try|2147483647|1000000", "try 2147483647 1000000"),
    ("try|-0|+7", "try 0 7"),
];

#[test]
fn words_are_the_command_that_they_spell(rt: HostRuntime) -> Result<(), Fail> {
    for (text, want) in COMMANDS {
        let words = words_of(rt.alloc(), text)?;
        let command = read_words(rt.alloc(), words.as_slice())?;
        let shown = show(rt.alloc(), &command)?;
        assert_eq!(rt; shown.as_str(), *want, "at {text}");
    }
    Ok(())
}

// Words that are no command, with bars between them.
const NO_COMMANDS: &[&str] = &[
    "",
    "run",
    "try",
    "--help",
    "Run|Q",
    "run |Q",
    "run|",
    "run|--plain",
    "run|Q|",
    "run|Q|F",
    "run|Q|=F",
    "run|Q|x=",
    "run|Q|1=F",
    "run|Q|x y=F",
    "run|Q|é=F",
    "run|Q|--plain|--plain",
    "run|Q|--plain=1",
    "run|Q|--Plain",
    "run|Q|--cut",
    "run|Q|--cut|",
    "run|Q|--cut|,",
    "run|Q|--cut|5,",
    "run|Q|--cut|,5",
    "run|Q|--cut|5,,5",
    "run|Q|--cut|5, 6",
    "run|Q|--cut|5,4",
    "run|Q|--cut|--5",
    "run|Q|x=F|--cut|5,3",
    "run|Q|x=F|--cut=5",
    "run|Q|--cut|1|--cut|2",
    "run|Q|--cut|4000000000000000001",
    "run|Q|--cut|-4000000000000000001",
    "run|Q|--cut|99999999999999999999",
    "run|Q|--upto|5",
    "run|Q|--save|D",
    "run|Q|--end",
    "compile|Q|x=F",
    "compile|Q|--cut|5",
    "exec|C|--plain",
    "explain|Q|--plain",
    "explain|Q|x=F",
    "start|Q|--upto|5",
    "start|Q|--save|D",
    "start|Q|--save|D|--upto",
    "start|Q|--upto|5|--save|",
    "start|Q|--upto|5|--upto|5|--save|D",
    "start|Q|--upto|5|--save|D|--save|D",
    "start|Q|--upto|5,6|--save|D",
    "start|Q|--upto|5|--save|D|--end",
    "start|Q|--upto|5|--save|D|--cut|5",
    "start|Q|--upto|4000000000000000001|--save|D",
    "start|Q|--upto||--save|D",
    "start|Q|--upto|x|--save|D",
    "start|Q|--upto|x=|--save|D",
    "start|Q|--upto|=5|--save|D",
    "start|Q|--upto|x=5,|--save|D",
    "start|Q|--upto|,x=5|--save|D",
    "start|Q|--upto|x=5,,y=6|--save|D",
    "start|Q|--upto|x=5,6|--save|D",
    "start|Q|--upto|5,x=6|--save|D",
    "start|Q|--upto|x=5, y=6|--save|D",
    "start|Q|--upto|x =5|--save|D",
    "start|Q|--upto|x==5|--save|D",
    "start|Q|--upto|x=y=5|--save|D",
    "start|Q|--upto|1=5|--save|D",
    "start|Q|--upto|x=5y|--save|D",
    "start|Q|--upto|x=4000000000000000001|--save|D",
    "start|Q|--upto|x=5,y=-4000000000000000001|--save|D",
    "start|Q|--upto|x=5|--upto|y=6|--save|D",
    "resume|C|--upto|x=5|--end",
    "run|Q|--cut|x=5",
    "run|Q|--upto|x=5",
    "resume|C|x=F",
    "resume|C|--end|--end",
    "resume|C|x=F|--end|--upto|5|--save|D",
    "resume|C|--end|--save|D",
    "resume|C|--upto|5",
    "resume|C|--end|--cut|5",
    "pipe|Q|--cut|5",
    "watch|Q|--cut|5",
    "parts",
    "parts|Q",
    "parts|Q|--order|0",
    "parts|--at|5",
    "parts|Q|--at",
    "parts|Q|--at|",
    "parts|Q|--at|,",
    "parts|Q|--at|5,",
    "parts|Q|--at|5,,6",
    "parts|Q|--at|5,5",
    "parts|Q|--at|5,4",
    "parts|Q|--at|5|--at|6",
    "parts|Q|--at=5",
    "parts|Q|--at|4000000000000000001",
    "parts|Q|--at|3,4000000000000000001",
    "parts|Q|--at|-4000000000000000001",
    "parts|Q|--at|5|--order",
    "parts|Q|--at|5|--order|",
    "parts|Q|--at|5|--order|0,",
    "parts|Q|--at|5|--order|-1",
    "parts|Q|--at|5|--order|0,4294967296",
    "parts|Q|--at|5|--order|0|--order|1",
    "parts|Q|--at|5|--cut|5",
    "parts|Q|--at|5|--end",
    "parts|Q|--at|5|--upto|5",
    "parts|Q|--at|5|--save|D",
    "run|Q|--at|5",
    "run|Q|--order|0",
    "compile|Q|--at|5",
    "exec|C|--at|5",
    "explain|Q|--order|0",
    "start|Q|--upto|5|--save|D|--at|5",
    "resume|C|--end|--at|5",
    "pipe|Q|--at|5",
    "watch|Q|--order|0",
    "flow",
    "flow|",
    "flow|--plain",
    "flow|P|G",
    "flow|P|x=",
    "flow|P|--plain|--plain",
    "flow|P|--cut|5",
    "flow|P|--end",
    "flow|P|--upto|5",
    "flow|P|--upto|5|--save|D",
    "flow|P|--save|D",
    "flow|P|--at|5",
    "flow|P|--order|0",
    "flow|P|--edits|E",
    "Flow|P",
    "fix",
    "fix|Q",
    "fix|Q|x=F",
    "fix|--edits|E",
    "fix|Q|--edits",
    "fix|Q|--edits|",
    "fix|Q|--edits=E",
    "fix|Q|--Edits|E",
    "fix|Q|--edit|E",
    "fix|Q|--edits|E|F",
    "fix|Q|--edits|E|--edits|E",
    "fix|Q|--plain|--edits|E|--plain",
    "fix|Q|--edits|E|--cut|5",
    "fix|Q|--edits|E|--end",
    "fix|Q|--edits|E|--upto|5",
    "fix|Q|--edits|E|--upto|5|--save|D",
    "fix|Q|--edits|E|--save|D",
    "fix|Q|--edits|E|--at|5",
    "fix|Q|--edits|E|--order|0",
    "run|Q|--edits|E",
    "compile|Q|--edits|E",
    "exec|C|--edits|E",
    "explain|Q|--edits|E",
    "start|Q|--upto|5|--save|D|--edits|E",
    "resume|C|--upto|5|--save|D|--edits|E",
    "resume|C|--end|--edits|E",
    "pipe|Q|--edits|E",
    "watch|Q|--edits|E",
    "parts|Q|--at|5|--edits|E",
    "try|1|2|--edits|E",
    "try|1",
    "try|1|2|3",
    "try|1|2|--plain",
    "try|1|x",
    "try|-1|1",
    "try|1|-1",
    "try|2147483648|0",
    "try|0|1000001",
];

#[test]
fn other_words_are_no_command(rt: HostRuntime) -> Result<(), Fail> {
    for text in NO_COMMANDS {
        let words = words_of(rt.alloc(), text)?;
        match read_words(rt.alloc(), words.as_slice()) {
            Ok(_) => assert!(rt; false, "at {text}"),
            Err(fault) => assert_eq!(rt; fault, WordsFault::Usage, "at {text}"),
        }
    }
    match read_words(rt.alloc(), &[]) {
        Ok(_) => assert!(rt; false, "at no words"),
        Err(fault) => assert_eq!(rt; fault, WordsFault::Usage),
    }
    Ok(())
}
