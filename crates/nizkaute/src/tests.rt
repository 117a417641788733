// What the run of a whole script does not show: lines that are no call, after which it ends with
// status 1, outcomes that it has none of, and settings.
use script::command::{Command, Numbers, System};
use script::outcome::{outcome, refusal, wrong_line};
use script::parse::parse;
use script::settings::START;
use std::alloc::Global;
use std::process::Abort;
use std::test::Fail;
use syntax::fault::{ReadFault, WriteFault};

const WRONG: &str = "foo => line 7: unknown call
READ - => line 7: unknown call
read => line 7: wrong number of words
read B7 00 => line 7: wrong number of words
read B => line 7: not bytes in pairs of hexadecimal digits
list 0G => line 7: not bytes in pairs of hexadecimal digits
write 9 => line 7: wrong number of words
system pair ranks 3 => line 7: unknown class system
system ranks 256 => line 7: not a number from 0 to 255
system ranks +3 => line 7: not a number from 0 to 255
numbers => line 7: unknown numbers
tables 1 2 3 4 5 6 => line 7: wrong number of words
tables 1 2 3 4 5 6 1000001 => line 7: not a number from 0 to 1000000
tables 1 2 3 4 5 6 99999999999 => line 7: not a number from 0 to 1000000
open - => line 7: not yet
look 1 => line 7: not yet";

const WRONG_EXAMINE: &str = "examine => line 7: wrong number of words
examine B7F => line 7: not bytes in pairs of hexadecimal digits";

// Each case is a line, and what is printed of it.
fn are_wrong(rt: &impl Abort, heap: Global, cases: &str) -> Result<(), Fail> {
    for case in cases.lines() {
        let (line, text) = case.split_once(" => ").ok_or("no case")?;
        let Err(fault) = parse(heap, line) else {
            return Err(Fail::new("taken for a call"));
        };
        assert_eq!(rt; wrong_line(heap, 7, fault)?.as_str(), text);
    }
    Ok(())
}

#[test]
fn wrong_lines(rt: HostRuntime) -> Result<(), Fail> {
    are_wrong(&rt, rt.alloc(), WRONG)
}

#[test]
fn wrong_lines_to_examine(rt: HostRuntime) -> Result<(), Fail> {
    are_wrong(&rt, rt.alloc(), WRONG_EXAMINE)
}

#[test]
fn outcomes_are_told(rt: HostRuntime) -> Result<(), Fail> {
    let heap = rt.alloc();
    let refused: Result<(), ReadFault> = Err(ReadFault::Filling { bit: 66 });
    assert_eq!(rt;
        outcome(heap, "clear", refused)?.as_str(),
        "clear refused 5 reading 66 0"
    );
    let done: Result<(), ReadFault> = Ok(());
    assert_eq!(rt; outcome(heap, "clear", done)?.as_str(), "clear done");
    let refusal = refusal(heap, "write", WriteFault::TooShort)?;
    assert_eq!(rt; refusal.as_str(), "write refused 18 running 0 0");
    Ok(())
}

#[test]
fn settings_are_kept(rt: HostRuntime) -> Result<(), Fail> {
    let heap = rt.alloc();
    let mut settings = START;
    for line in "tables 1 2 3 4 5 6 7\n system\tpair ranks 3 ranks 255 # two\nnumbers hundredths".lines()
    {
        let Ok(Some(Command::Set(setting))) = parse(heap, line) else {
            return Err(Fail::new("no setting"));
        };
        settings = settings.with(setting);
    }
    let system = System::RanksAndRanks {
        first: 3,
        second: 255,
    };
    assert_eq!(rt; settings.system, system);
    assert_eq!(rt; settings.numbers, Numbers::Hundredths);
    assert_eq!(rt; settings.tables.cells, 1);
    assert_eq!(rt; settings.tables.stack, 7);
    Ok(())
}
