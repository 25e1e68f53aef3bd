// A call of the list of calls (tools/call_list.py): what memory holds before it, and what the program prints of its answer and of every number
// and double that it leaves other than it was.
pub mod call;
pub mod memory;
pub mod report;
