// The power cuts that a trial is followed by.
use blob_device::CrashChoice;

/// What each power cut keeps of what was not synced: nothing, all, and mixtures of both.
pub const CUTS: [CrashChoice; 6] = [
    CrashChoice::Settled,
    CrashChoice::AsRead,
    CrashChoice::Mixed(0x5555_5555_5555_5555),
    CrashChoice::Mixed(0xAAAA_AAAA_AAAA_AAAA),
    CrashChoice::Mixed(0x3333_3333_3333_3333),
    CrashChoice::Mixed(0xF0F0_F0F0_F0F0_F0F0),
];
