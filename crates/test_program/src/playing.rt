//! Runs that no worked script shows: as many pins as there can be, and a text that is too long.
use gt_host::play;
use std::test::Fail;

// Three domains, of which the second and the third may map pages of the first. The calls begin at line 12.
const HEAD: &str = "triple b_t a_t map_read\n\
triple b_t a_t map_write\n\
triple b_t a_t unmap\n\
triple c_t a_t map_read\n\
triple c_t a_t map_write\n\
triple c_t a_t unmap\n\
triple a_t b_t map_read\n\
triple b_t c_t map_read\n\
domain 1 u:r:a_t 8 1 1\n\
domain 2 u:r:b_t 8 1 1\n\
domain 3 u:r:c_t 8 1 1\n";

// As many read pins on one entry as it can have.
#[test]
fn as_many_pins_as_there_can_be(rt: HostRuntime) -> Result<(), Fail> {
    let alloc = rt.alloc();
    let mut script = String::from_str(alloc, HEAD)?;
    script.push_str("do 1 grant 0 page 2 rw 5\n")?;
    let mut wanted = String::from_str(alloc, "12 1 ok\n")?;
    for line in 13..13 + 4095 {
        script.push_str("do 2 map h 1 0 ro\n")?;
        wanted.push_str(format!(in alloc; "{line} 2 ok\n")?.as_str())?;
    }
    script.push_str("do 2 map h 1 0 ro\nshow 1 0\ndo 2 map h 1 0 rw\nshow 1 0\ndo 1 demote 0\n")?;
    wanted.push_str(
        "4108 2 N17 -1\n\
4109 show 1 0 page 2 rw frame=5 gen=1 reads=4095 writes=0 status=0008\n\
4110 2 ok\n\
4111 show 1 0 page 2 rw frame=5 gen=1 reads=4095 writes=1 status=0018\n\
4112 1 N19 -1\n",
    )?;
    let mut reader = script.as_bytes();
    let mut writer = Vec::new(alloc);
    let outcome = play(alloc, &mut reader, &mut writer, false);
    assert!(rt; outcome.is_ok());
    assert_eq!(rt; writer.as_slice(), wanted.as_bytes());
    Ok(())
}

#[test]
fn a_text_that_is_too_long(rt: HostRuntime) -> Result<(), Fail> {
    let alloc = rt.alloc();
    let long = vec![in alloc; b' '; 1_048_577]?;
    let mut reader = long.as_slice();
    let mut writer = Vec::new(alloc);
    let fault = match play(alloc, &mut reader, &mut writer, false) {
        Ok(()) => String::new(alloc),
        Err(fault) => fault.to_string(alloc)?,
    };
    assert_eq!(rt; fault.as_str(), "line 1: limit");
    assert!(rt; writer.is_empty());
    Ok(())
}
