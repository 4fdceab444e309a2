// The greatest sizes of files.

/// The most bytes of a configuration, 1 MiB.
pub const CONFIG_MAX: u64 = 1_048_576;

/// The most bytes of a trace, 64 MiB.
pub const TRACE_MAX: u64 = 67_108_864;

/// The most bytes of a report, 1 GiB.
pub const REPORT_MAX: u64 = 1_073_741_824;
