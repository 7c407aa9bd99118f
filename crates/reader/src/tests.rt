// What a text file with fixed line ends can't show, and one whole description.
use crate::faults::ReadFault;
use crate::read::read;
use description::descriptions::Description;
use fault::Fault;
use lexer::LexicalFault;
use std::process::Abort;
use std::test::Fail;

const START: &[u8] = b"BTG 1\n%nt d D\n%nt a A\n%start d";

const WHOLE: &[u8] =
    b"BTG 1\n%nt d D\n%nt a A\n%start d\nd: CNST = ldi 6 12\nd: CNST:0..255 = ldq 2 4\nd: VAR = ldv 4 8\nd: ADD(d,d) = add 2 4\na: d = mova 2 4\nd: a = movd 2 4\na: ADD(a,SHL(d,CNST:0..3)) = lea 4 8\nd: SHL(d,CNST:0..31) = shli 2 14\n";

fn refuses(rt: &impl Abort, text: &[u8], fault: ReadFault, number: u32, place: usize) {
    let mut description = Description::empty();
    assert_eq!(rt; read(text, &mut description), Err(fault));
    assert_eq!(rt; fault.number(), number);
    assert_eq!(rt; fault.place(), place);
}

#[test]
fn whole(rt: HostRuntime) -> Result<(), Fail> {
    let mut description = Description::empty();
    assert_eq!(rt; read(WHOLE, &mut description), Ok(()));
    assert_eq!(rt; description.names.len(), 2);
    assert_eq!(rt; description.start_number(), Some(0));
    assert_eq!(rt; description.rules.len(), 8);
    assert!(rt; read(b"BTG 2", &mut description).is_err());
    assert_eq!(rt; description.rules.len(), 8);
    match description.rule(7) {
        Some(rule) => {
            assert_eq!(rt;
                (rule.left, rule.pattern.items.len(), rule.figures.cycles),
                (1, 5, 8)
            );
            Ok(())
        },
        None => Err(Fail::new("no rule 7")),
    }
}

#[test]
fn ends(rt: HostRuntime) {
    let mut description = Description::empty();
    assert_eq!(rt; read(START, &mut description), Ok(()));
    assert_eq!(rt;
        read(b"BTG 001  \n%nt d D\n%start  d \n ", &mut description),
        Ok(())
    );
    assert_eq!(rt; description.names.len(), 1);
    refuses(&rt, b"BTG 1", ReadFault::Unexpected(5), 3, 5);
    refuses(&rt, b"BTG 1 ", ReadFault::Unexpected(6), 3, 6);
    refuses(&rt, b"BT", ReadFault::NoMark, 1, 0);
    refuses(&rt, b"BTG", ReadFault::Unexpected(3), 3, 3);
}

#[test]
fn bytes_over_127(rt: HostRuntime) {
    refuses(&rt, b"BTG\xc3\xa9", ReadFault::Unexpected(3), 3, 3);
    refuses(
        &rt,
        b"BTG 1\n%nt \xc3\xa9",
        ReadFault::Lexical(LexicalFault::StrayByte(10)),
        3,
        10,
    );
    refuses(
        &rt,
        b"BTG 1\xff",
        ReadFault::Lexical(LexicalFault::StrayByte(5)),
        3,
        5,
    );
}
