use crate::{Refusal, Setting};

#[test]
fn refusals(rt: HostRuntime) {
    let cases: [(Refusal, u8, u64); 17] = [
        (Refusal::from(Setting::Low), 1, 5),
        (Refusal::BadSetting(255), 1, 255),
        (Refusal::NoShare, 2, 0),
        (Refusal::NotShown(8), 4, 8),
        (Refusal::BadLength(385), 5, 385),
        (Refusal::BadWork, 6, 0),
        (Refusal::NotConfigured, 20, 0),
        (Refusal::AlreadyConfigured, 21, 0),
        (Refusal::PacketWaits(2), 22, 2),
        (Refusal::Retired, 23, 0),
        (Refusal::LimitUsed, 24, 0),
        (Refusal::OnHold, 25, 0),
        (Refusal::NoneListed, 26, 0),
        (Refusal::PastPeriod(63_240), 27, 63_240),
        (Refusal::NoneQueued, 28, 0),
        (Refusal::AllOut, 29, 0),
        (Refusal::NotOut, 30, 0),
    ];
    for (refusal, number, place) in cases {
        assert_eq!(rt; refusal.number(), number);
        assert_eq!(rt; refusal.place(), place);
    }
}

#[test]
fn settings(rt: HostRuntime) {
    let cases: [(Setting, u64); 6] = [
        (Setting::Period, 1),
        (Setting::Limit, 2),
        (Setting::Size, 3),
        (Setting::High, 4),
        (Setting::Low, 5),
        (Setting::Hold, 6),
    ];
    for (setting, place) in cases {
        assert_eq!(rt; Refusal::from(setting).place(), place);
    }
}
