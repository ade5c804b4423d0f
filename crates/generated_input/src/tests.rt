use crate::gen_input;
use std::test::Fail;

#[test]
fn a_number_gives_its_tables(rt: HostRuntime) -> Result<(), Fail> {
    let made = gen_input(rt.alloc(), 7, 3)?;
    assert_eq!(rt; made.dept.items(), b"dno,dname,floor\n0,d0,8\n".as_slice());
    assert_eq!(rt;
        made.emp.items(),
        b"eno,name,dno,sal\n0,e0,0,6753\n1,e1,0,5545\n2,e2,0,9864\n".as_slice()
    );
    Ok(())
}
