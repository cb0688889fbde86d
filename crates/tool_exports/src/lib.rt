#![tactic(auto)]
// The tool for C programs, over lent tool memory. include/propolisk_tool.h declares these calls, and docs/TOOL_MEMORY.md has the layout.
mod events;
mod requests;
mod settling;
