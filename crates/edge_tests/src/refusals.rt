// The numbers and the texts of refusals.
use chip::fault::ChipFault;
use machine::fault::MachineFault;
use std::test::Fail;

#[test]
fn each_fault_of_a_chip_has_its_number(rt: HostRuntime) {
    let cases = [
        (ChipFault::NoSuchCoupler, 2),
        (ChipFault::WrongLength, 5),
        (ChipFault::SizeOffLimits, 6),
        (ChipFault::BadCoupler { coupler: 255 }, 7),
        (ChipFault::NoMemory, 0),
    ];
    for (fault, number) in cases {
        assert_eq!(rt; fault.number(), number, "{fault}");
    }
}

#[test]
fn each_fault_of_a_machine_has_its_number(rt: HostRuntime) {
    let cases = [
        (MachineFault::PlaceOutOfRange, 1),
        (MachineFault::NoSuchCoupler, 2),
        (MachineFault::NotCoupled, 3),
        (MachineFault::AllowanceExceeded { asked: 1, left: 0 }, 4),
        (MachineFault::TapeTooLong, 8),
        (MachineFault::NoMemory, 0),
    ];
    for (fault, number) in cases {
        assert_eq!(rt; fault.number(), number, "{fault}");
    }
}

#[test]
fn a_refusal_says_its_numbers(rt: HostRuntime) -> Result<(), Fail> {
    let heap = rt.alloc();
    let fault = MachineFault::AllowanceExceeded { asked: 3, left: 1 };
    let text = format!(in heap; "{fault}")?;
    assert_eq!(rt; text.as_str(), "refused 4: 3 gates asked, 1 left");
    let fault = ChipFault::BadCoupler { coupler: 1 };
    let text = fault.to_string(heap)?;
    assert_eq!(rt;
        text.as_str(),
        "refused 7: coupler 1 is no coupler of its own"
    );
    Ok(())
}
