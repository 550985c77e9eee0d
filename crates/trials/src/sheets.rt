// Sheets that are read, refused, written and read back.
use model::fault::{Fault, Layer};
use model::limits::{MOST_CORES, MOST_STAGES, NAME_BYTES};
use model::stage::Stage;
use sheet::read::{Counts, read};
use sheet::write::{LONGEST_SHEET, write_sheet};
use std::process::Abort;
use std::test::Fail;
use writing::text::Text;

// What the tables hold before a call.
const MARK: Stage = Stage {
    name: [7; NAME_BYTES],
    cost: 7,
    period: 7,
};

// A fault by its numbers, here and below, as a refusal line prints them: the tests hold the numbers too.
fn refusal(
    rt: &impl Abort,
    fault: Fault,
    number: u8,
    place: usize,
    layer: Layer,
) -> Result<(), Fail> {
    assert_eq!(rt; u8::from(fault.cause), number);
    assert_eq!(rt; fault.place, place);
    assert_eq!(rt; fault.layer, layer);
    Ok(())
}

// The text is refused by this cause at this line, and the table is left.
fn refused(rt: &impl Abort, text: &[u8], number: u8, place: usize) -> Result<(), Fail> {
    let mut table = [MARK; MOST_STAGES];
    match read(text, &mut table) {
        Ok(_) => Err(Fail::new("read")),
        Err(fault) => {
            assert_eq!(rt; table, [MARK; MOST_STAGES]);
            refusal(rt, fault, number, place, Layer::Reading)
        }
    }
}

// The text is read, with these counts.
fn accepted(rt: &impl Abort, text: &[u8], cores: usize, stages: usize) {
    let mut table = [MARK; MOST_STAGES];
    assert_eq!(rt; read(text, &mut table), Ok(Counts { cores, stages }));
}

// A sheet of this many stages, and then the end.
fn many(stages: u8, end: &[u8], page: &mut [u8]) -> Result<usize, Fault> {
    let mut text = Text::new();
    text.put(b"(cores 8)\n");
    for i in 0..stages {
        text.put(b"(stage ");
        text.put(&[b'a' + i / 26, b'a' + i % 26]);
        text.put(b" (cost 1) (period 9))\n");
    }
    text.put(end);
    text.deliver(page)
}

fn many_refused(
    rt: &impl Abort,
    stages: u8,
    end: &[u8],
    number: u8,
    place: usize,
) -> Result<(), Fail> {
    let mut page = [0; 4096];
    let n = many(stages, end, &mut page)?;
    assert!(rt; n <= 4096);
    refused(rt, &page[..n], number, place)
}

// A stage with a name of twelve bytes.
fn long_stage(i: u8) -> Stage {
    let mut name = [b'a'; NAME_BYTES];
    name[0] = b'a' + i / 26;
    name[1] = b'a' + i % 26;
    Stage {
        name,
        cost: 60_000,
        period: 60_000,
    }
}

fn fill(table: &mut [Stage]) {
    for (i, stage) in (0u8..).zip(table.iter_mut()) {
        *stage = long_stage(i);
    }
}

fn one(name: [u8; NAME_BYTES], cost: u32, period: u32) -> [Stage; 1] {
    [Stage { name, cost, period }]
}

#[test]
fn limits_of_a_line(rt: HostRuntime) -> Result<(), Fail> {
    accepted(&rt, b"(cores 1)\n(stage a (cost 1) (period 2))\n", 1, 1);
    accepted(
        &rt,
        b"(cores 8)\n(stage a (cost 60000) (period 60000))\n",
        8,
        1,
    );
    accepted(
        &rt,
        b"(cores 8)\n(stage abcdefghijkl (cost 1) (period 9))\n",
        8,
        1,
    );
    refused(&rt, b"(cores 9)\n(stage a (cost 1) (period 2))\n", 12, 1)?;
    refused(
        &rt,
        b"(cores 8)\n(stage a (cost 1) (period 60001))\n",
        12,
        2,
    )?;
    refused(&rt, b"(cores 8)\n(stage a (cost 1) (period 1))\n", 12, 2)?;
    refused(&rt, b"(cores 8)\n(stage a (cost 0) (period 9))\n", 12, 2)?;
    refused(&rt, b"(cores 8)\n(stage a (cost 9) (period 8))\n", 12, 2)?;
    refused(
        &rt,
        b"(cores 8)\n(stage a (cost 1) (period 99999))\n",
        12,
        2,
    )?;
    refused(
        &rt,
        b"(cores 8)\n(stage a (cost 1) (period 100000))\n",
        11,
        2,
    )?;
    refused(
        &rt,
        b"(cores 8)\n(stage abcdefghijklm (cost 1) (period 9))\n",
        11,
        2,
    )?;
    refused(&rt, b"(cores 8)\n(stage a (cost 05) (period 9))\n", 11, 2)?;
    refused(&rt, b"(cores 08)\n(stage a (cost 5) (period 9))\n", 11, 1)
}

#[test]
fn no_forms(rt: HostRuntime) -> Result<(), Fail> {
    refused(&rt, b"", 11, 1)?;
    refused(&rt, b"\n", 11, 1)?;
    refused(&rt, b"(cores 2)", 11, 1)?;
    refused(&rt, b" (cores 2)\n", 11, 1)?;
    refused(&rt, b"(cores  2)\n", 11, 1)?;
    refused(&rt, b"(cores 2) \n", 11, 1)?;
    refused(&rt, b"(cores 2)\r\n", 11, 1)?;
    refused(&rt, b"(core 2)\n", 11, 1)?;
    refused(&rt, b"(Cores 2)\n", 11, 1)?;
    refused(&rt, b"(stage a (cost 1) (period 9))\n", 11, 1)?;
    refused(&rt, b"(cores 2)\n(cores 2)\n", 11, 2)?;
    refused(&rt, b"(cores 2)\n\n", 11, 2)?;
    refused(&rt, b"(cores 2)\n(stage a (cost 1) (period 9))", 11, 2)?;
    refused(&rt, b"(cores 2)\n(stage a (cost 0) (period 9))", 11, 2)?;
    refused(&rt, b"(cores 2)\n(stage a (cost 1) (period 9))\nx", 11, 3)?;
    refused(&rt, b"(cores 2)\n(stage a (cost 1) (period 9)) \n", 11, 2)?;
    refused(&rt, b"(cores 2)\n(stage a (cost 1)  (period 9))\n", 11, 2)?;
    refused(&rt, b"(cores 2)\n(stage a (cost 1)(period 9))\n", 11, 2)?;
    refused(&rt, b"(cores 2)\n(stage a (period 9) (cost 1))\n", 11, 2)?;
    refused(&rt, b"(cores 2)\n(stage  (cost 1) (period 9))\n", 11, 2)?;
    refused(&rt, b"(cores 2)\n(stage a1 (cost 1) (period 9))\n", 11, 2)?;
    refused(&rt, b"(cores 2)\n(stage a (cost ) (period 9))\n", 11, 2)?;
    refused(
        &rt,
        b"(cores 2)\n(stage a\x00 (cost 1) (period 9))\n",
        11,
        2,
    )?;
    refused(
        &rt,
        b"(cores 2)\n(stage a\xff (cost 1) (period 9))\n",
        11,
        2,
    )
}

#[test]
fn order_of_the_tests(rt: HostRuntime) -> Result<(), Fail> {
    refused(&rt, b"(cores 0)\n", 12, 1)?;
    refused(&rt, b"(cores 0)\nx\n", 12, 1)?;
    refused(&rt, b"(cores 2)\n", 16, 1)?;
    refused(
        &rt,
        b"(cores 2)\n(stage a (cost 1) (period 9))\n(stage b (cost 1) (period 8))\n",
        13,
        3,
    )?;
    refused(
        &rt,
        b"(cores 2)\n(stage a (cost 1) (period 9))\n(stage a (cost 1) (period 9))\n",
        14,
        3,
    )?;
    refused(
        &rt,
        b"(cores 2)\n(stage a (cost 1) (period 9))\n(stage a (cost 0) (period 8))\n",
        12,
        3,
    )?;
    refused(
        &rt,
        b"(cores 2)\n(stage a (cost 1) (period 9))\n(stage a (cost 1) (period 8))\n",
        13,
        3,
    )?;
    refused(
        &rt,
        b"(cores 2)\n(stage a (cost 1) (period 9))\n(stage b (cost 1) (period 8))\nx\n",
        13,
        3,
    )
}

#[test]
fn most_lines(rt: HostRuntime) -> Result<(), Fail> {
    let mut page = [0; 4096];
    let n = many(64, b"", &mut page)?;
    assert!(rt; n <= 4096);
    accepted(&rt, &page[..n], MOST_CORES, MOST_STAGES);
    many_refused(&rt, 65, b"", 15, 66)?;
    many_refused(&rt, 64, b"x", 15, 66)?;
    many_refused(&rt, 64, b"\n", 15, 66)?;
    many_refused(&rt, 63, b"x", 11, 65)
}

#[test]
fn names_like_head_words(rt: HostRuntime) {
    let mut table = [MARK; MOST_STAGES];
    let text =
        b"(cores 3)\n(stage cores (cost 1) (period 4))\n(stage stage (cost 2) (period 4))\n(stage cost (cost 3) (period 5))\n(stage period (cost 4) (period 6))\n";
    assert_eq!(rt;
        read(text, &mut table),
        Ok(Counts {
            cores: 3,
            stages: 4,
        })
    );
    assert_eq!(rt;
        table[0],
        Stage {
            name: *b"cores\0\0\0\0\0\0\0",
            cost: 1,
            period: 4,
        }
    );
    assert_eq!(rt;
        table[3],
        Stage {
            name: *b"period\0\0\0\0\0\0",
            cost: 4,
            period: 6,
        }
    );
    assert_eq!(rt; table[4], MARK);
    assert_eq!(rt; table[63], MARK);
}

#[test]
fn short_tables(rt: HostRuntime) -> Result<(), Fail> {
    let text = b"(cores 1)\n(stage a (cost 1) (period 2))\n";
    let mut short = [MARK; 63];
    let Err(fault) = read(text, &mut short) else {
        return Err(Fail::new("read"));
    };
    refusal(&rt, fault, 10, 0, Layer::Reading)?;
    assert_eq!(rt; short, [MARK; 63]);
    let Err(first) = read(b"x", &mut short) else {
        return Err(Fail::new("read"));
    };
    refusal(&rt, first, 10, 0, Layer::Reading)?;
    let mut long = [MARK; 65];
    assert_eq!(rt;
        read(text, &mut long),
        Ok(Counts {
            cores: 1,
            stages: 1,
        })
    );
    Ok(())
}

#[test]
fn written_and_read_back(rt: HostRuntime) {
    let mut table = [MARK; MOST_STAGES];
    fill(&mut table);
    let mut page = [9; 4096];
    assert_eq!(rt; write_sheet(8, &table, &mut page), Ok(LONGEST_SHEET));
    assert_eq!(rt; page[3145], b'\n');
    assert_eq!(rt; page[3146], 9);
    assert_eq!(rt; page[4095], 9);
    let mut back = [MARK; MOST_STAGES];
    assert_eq!(rt;
        read(&page[0..LONGEST_SHEET], &mut back),
        Ok(Counts {
            cores: MOST_CORES,
            stages: MOST_STAGES,
        })
    );
    assert_eq!(rt; back, table);
}

#[test]
fn written_bytes(rt: HostRuntime) {
    let mut page = [9; 43];
    let table = one(*b"a\0\0\0\0\0\0\0\0\0\0\0", 1, 2);
    assert_eq!(rt; write_sheet(1, &table, &mut page), Ok(40));
    assert!(rt; &page[0..40] == b"(cores 1)\n(stage a (cost 1) (period 2))\n".as_slice());
    assert_eq!(rt; page[40], 9);
}

// Writing is refused so, and the page is left: as `refused` above, of another call.
fn not_written(
    rt: &impl Abort,
    cores: usize,
    table: &[Stage],
    number: u8,
    place: usize,
) -> Result<(), Fail> {
    let mut page = [9; 39];
    match write_sheet(cores, table, &mut page) {
        Ok(_) => Err(Fail::new("written")),
        Err(fault) => {
            assert_eq!(rt; page, [9; 39]);
            refusal(rt, fault, number, place, Layer::Writing)
        }
    }
}

#[test]
fn writing_refused(rt: HostRuntime) -> Result<(), Fail> {
    let good = one(*b"a\0\0\0\0\0\0\0\0\0\0\0", 1, 2);
    not_written(&rt, 1, &good, 41, 0)?;
    not_written(&rt, 0, &good, 20, 0)?;
    not_written(&rt, 9, &good, 20, 0)?;
    not_written(&rt, usize::MAX, &good, 20, 0)?;
    not_written(&rt, 1, &[], 20, 0)?;
    not_written(&rt, 1, &[MARK; 65], 20, 0)?;
    not_written(&rt, 1, &[MARK; 64], 21, 1)?;
    not_written(&rt, 1, &[good[0], good[0]], 21, 2)?;
    not_written(&rt, 1, &one([0; NAME_BYTES], 1, 2), 21, 1)?;
    not_written(&rt, 1, &one(*b"a\0b\0\0\0\0\0\0\0\0\0", 1, 2), 21, 1)?;
    not_written(&rt, 1, &one(*b"a\0\0\0\0\0\0\0\0\0\0\0", 3, 2), 21, 1)?;
    not_written(&rt, 1, &one(*b"a\0\0\0\0\0\0\0\0\0\0\0", 1, 60_001), 21, 1)
}
