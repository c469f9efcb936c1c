use quant::Band;
use std::test::Fail;
use tables::{BandRows, Rows, StreamRows, output_header, rank_header, trace_header};

// A material stream at the first tick, and a signal at the last that there can be.
const FEED_AND_VALVE: &str = "0,feed,flow,0,1500\n\
    0,feed,conc,-20,-3\n\
    0,feed,temp,300,300\n\
    4294967295,valve,value,-1000000000000,1000000000000\n";

#[test]
fn streams(rt: HostRuntime) -> Result<(), Fail> {
    let mut rows = BandRows::new(rt.alloc());
    let mut feed = StreamRows::new(rt.alloc(), b"feed", false)?;
    let mut valve = StreamRows::new(rt.alloc(), b"valve", true)?;
    let bands = [
        Band { lo: 0, hi: 1500 },
        Band { lo: -20, hi: -3 },
        Band { lo: 300, hi: 300 },
    ];
    let full = [Band {
        lo: -1000000000000,
        hi: 1000000000000,
    }];
    rows.put_stream(0, &mut feed, &bands)?;
    rows.put_stream(4294967295, &mut valve, &full)?;
    let text = rows.into_text();
    assert!(rt; text.as_slice() == FEED_AND_VALVE.as_bytes());
    Ok(())
}

// Bands that stay, of which one end alone becomes another, and that are the number 0 at first.
const KEPT: &str = "8,a.level,value,0,0\n\
    8,b.level,value,7,9\n\
    9,a.level,value,0,0\n\
    9,b.level,value,8,9\n\
    10,a.level,value,0,10\n\
    10,b.level,value,8,9\n\
    11,a.level,value,0,1\n\
    11,b.level,value,8,9\n";

#[test]
fn rows_that_are_kept(rt: HostRuntime) -> Result<(), Fail> {
    let mut rows = BandRows::new(rt.alloc());
    let mut first = StreamRows::new(rt.alloc(), b"a.level", true)?;
    let mut second = StreamRows::new(rt.alloc(), b"b.level", true)?;
    let ends = [(0, 7), (0, 8), (10, 8), (1, 8)];
    for (i, (hi, lo)) in ends.iter().enumerate() {
        let tick = i as u32 + 8;
        rows.put_stream(tick, &mut first, &[Band { lo: 0, hi: *hi }])?;
        rows.put_stream(tick, &mut second, &[Band { lo: *lo, hi: 9 }])?;
    }
    assert!(rt; rows.into_text().as_slice() == KEPT.as_bytes());
    Ok(())
}

#[test]
fn header_and_no_rows(rt: HostRuntime) -> Result<(), Fail> {
    let mut rows = Rows::new(rt.alloc());
    rows.put(&[b"tick", b"stream", b"channel", b"lo", b"hi"])?;
    assert!(rt; rows.into_text()?.as_slice() == output_header());
    assert!(rt; Rows::new(rt.alloc()).into_text()?.is_empty());
    Ok(())
}

#[test]
fn ranks(rt: HostRuntime) -> Result<(), Fail> {
    let mut rows = Rows::new(rt.alloc());
    rows.put(&[b"unit", b"kind", b"rank"])?;
    assert!(rt; rows.into_text()?.as_slice() == rank_header());
    let mut rows = Rows::new(rt.alloc());
    rows.put_rank(b"t1", b"tank", 0)?;
    rows.put_rank(b"m_2", b"mixer", 16)?;
    assert!(rt; rows.into_text()?.as_slice() == b"t1,tank,0\nm_2,mixer,16\n".as_slice());
    Ok(())
}

// The first step of a run, which read one version, and one that read 8 of the last that there can be.
const FIRST_AND_LAST: &str = "0,0,t1.out,1,0\n\
    4294967295,18446744073709551615,col.bottom,4294967295,\
    4294967295 0 1 20 300 4000 50000 4294967295\n";

#[test]
fn steps(rt: HostRuntime) -> Result<(), Fail> {
    let mut rows = Rows::new(rt.alloc());
    rows.put(&[b"window", b"step", b"stream", b"version", b"inputs"])?;
    assert!(rt; rows.into_text()?.as_slice() == trace_header());
    let mut rows = Rows::new(rt.alloc());
    rows.put_step(0, 0, b"t1.out", 1, &[0])?;
    let inputs = [u32::MAX, 0, 1, 20, 300, 4000, 50000, u32::MAX];
    rows.put_step(u32::MAX, u64::MAX, b"col.bottom", u32::MAX, &inputs)?;
    assert!(rt; rows.into_text()?.as_slice() == FIRST_AND_LAST.as_bytes());
    Ok(())
}
