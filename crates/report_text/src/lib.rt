// The report's text for the bytes of a sheet. The definitions stand in specs/; no code is here.

#![tactic(auto)]
