// What the reader says of texts, good and bad.
use crate::reader::Reader;
use crate::types::*;

fn line_in(text: &[u8]) -> Result<Line, TextFault> {
    Reader::new(text).line()
}

fn field_in(text: &[u8], field: Field) -> Result<u32, TextFault> {
    Reader::new(text).field(field)
}

#[test]
fn lines(rt: HostRuntime) {
    let mut reader = Reader::new(b"         14294967295   0       0    1000\n");
    let good = Line {
        first: 1,
        second: 4294967295,
        relation: 0,
        delay: 0,
        width: 1000,
    };
    assert_eq!(rt; reader.line(), Ok(good));
    assert!(rt; reader.at_end());
    let broken = Err(TextFault::BrokenLine);
    assert_eq!(rt; line_in(b"         1"), broken);
    assert_eq!(rt;
        line_in(b"         1         2   1      10     100x"),
        broken
    );
    assert_eq!(rt;
        line_in(b"         1         2   1      10     100\r"),
        broken
    );
    let first_fault = Err(TextFault::BadField(Field::Relation));
    assert_eq!(rt;
        line_in(b"         1         2  03     007     100\n"),
        first_fault
    );
}

#[test]
fn bad_fields(rt: HostRuntime) {
    let texts: [&[u8; 8]; 7] = [
        b"        ",
        b"     007",
        b"      00",
        b"     1 0",
        b"     1x0",
        b"     1\n0",
        b"     10 ",
    ];
    for text in texts {
        assert_eq!(rt;
            field_in(text, Field::Delay),
            Err(TextFault::BadField(Field::Delay))
        );
    }
}

#[test]
fn bad_numbers(rt: HostRuntime) {
    assert_eq!(rt;
        field_in(b"4294967296", Field::First),
        Err(TextFault::BadNumber(Field::First))
    );
    assert_eq!(rt;
        field_in(b"         0", Field::Second),
        Err(TextFault::BadNumber(Field::Second))
    );
}
