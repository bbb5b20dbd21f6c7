use os9_base::registers::Pid;
use os9_sched::Sched;
use std::test::Fail;

const TWO: Pid = Pid(2);

const THREE: Pid = Pid(3);

#[test]
fn age_order(rt: HostRuntime) -> Result<(), Fail> {
    let mut sched = Sched::new(rt.alloc())?;
    sched.add(TWO, 200);
    sched.add(THREE, 1);
    for number in 1..=300 {
        if number == 201 {
            assert_eq!(rt; sched.age(TWO), 201);
        }
        let chosen = if number == 200 { THREE } else { TWO };
        assert_eq!(rt; sched.dispatch(), Some(chosen));
    }
    Ok(())
}
