// The starred samples of docs/SCOPE.md: they stand in specs/, one table under one proof, and there is no code.
#![tactic(auto)]
