//! The texts of faults.
use polcert_model::{ItemFault, ModelFault, Table};
use polcert_testing::expect_eq;
use std::test::Fail;

#[test]
fn faults_say_where(rt: HostRuntime) -> Result<(), Fail> {
    let alloc = rt.alloc();
    let item = ModelFault::Item {
        kind: ItemFault::LateLine,
        item: 8,
        place: 91,
    };
    let row = ModelFault::RowSum {
        table: Table::Observation,
        action: 0,
        row: 1,
    };
    expect_eq!(rt;
        format!(in alloc; "{item}")?.as_str(),
        "this line comes too late, in item 8 at byte 91"
    );
    expect_eq!(rt;
        format!(in alloc; "{row}")?.as_str(),
        "row 1 of O under action 0 does not sum to one"
    );
    Ok(())
}
