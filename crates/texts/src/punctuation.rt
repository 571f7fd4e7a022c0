// The bytes that structure a text.

// Ends a line.
pub(crate) const LINE_FEED: u8 = b'\n';

// May stand before a line feed, or at the end of the text; no part of the line.
pub(crate) const CARRIAGE_RETURN: u8 = b'\r';

// Parts the readings of a line.
pub(crate) const COMMA: u8 = b',';

// Parts the words of a log's first line.
pub(crate) const SPACE: u8 = b' ';

// Parts the digits of a decimal number from its decimals.
pub(crate) const POINT: u8 = b'.';

// Makes a number negative.
pub(crate) const MINUS: u8 = b'-';

// What spreadsheets put before a text in UTF-8; no part of the text.
pub(crate) const BYTE_ORDER_MARK: [u8; 3] = [0xef, 0xbb, 0xbf];

// The first word of a log.
pub(crate) const LOG: &[u8] = b"log";

// With what a log begins.
pub(crate) const LOG_BEGINS: &[u8] = b"log ";
