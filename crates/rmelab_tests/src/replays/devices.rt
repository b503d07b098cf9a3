//! Replays and traces where a reader, a writer or a file fails.

pub const DEVICES_AND_FILES_THAT_FAIL: &str = "
@text UNREAD
rmelab: read failed
@text UNWRITTEN
rmelab: write failed
@text OUT_OF_MEMORY
rmelab: out of memory
@row rmelab replay @in SMALLEST @fails read @ends 3 @err UNREAD
@row rmelab replay --json @in SMALLEST @fails read @ends 3 @err UNREAD
@row rmelab replay --save a.json @in SMALLEST @fails read @ends 3 @err UNREAD
@row rmelab judge @in OVERTAKEN @fails read @ends 3 @err UNREAD
@row rmelab replay @in SMALLEST @fails write @ends 3 @err UNWRITTEN
@row rmelab replay --json @in SMALLEST @fails write @ends 3 @err UNWRITTEN
@row rmelab judge @in OVERTAKEN @fails write @ends 3 @err UNWRITTEN
@row rmelab judge @in OVERTAKEN @fails flush @out AGAINST @ends 3 @err UNWRITTEN
@row rmelab replay --save a.json @in SMALLEST @fails flush @out REPORT @ends 3 @err UNWRITTEN
@row rmelab judge @fails err @ends 2
@row rmelab replay s.rme @in SMALLEST @file s.rme SMALLEST @fails file-read @ends 3 @err UNREAD
@row rmelab replay --json s.rme @in SMALLEST @file s.rme SMALLEST @fails file-read @ends 3 @err UNREAD
@row rmelab judge s.rme @in IN_ORDER @file s.rme OVERTAKEN @fails file-read @ends 3 @err UNREAD
@row rmelab replay --image a.json @in AGAIN @file a.json IMAGE @fails file-read @ends 3 @err UNREAD
@row rmelab replay --save a.json @in SMALLEST @fails file @out REPORT @ends 3 @err UNWRITTEN
@row rmelab replay --image a.json @in SMALLEST @ends 3 @err UNREAD
@row rmelab replay s.rme @in SMALLEST @ends 3 @err UNREAD
@row rmelab judge s.rme @in SMALLEST @ends 3 @err UNREAD
@row rmelab replay s.rme @in SMALLEST @fails file-memory @ends 3 @err OUT_OF_MEMORY
@row rmelab replay --save a.json @in SMALLEST @fails file-memory @out REPORT @ends 3 @err OUT_OF_MEMORY
";
