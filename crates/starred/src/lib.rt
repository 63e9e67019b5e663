// The starred cases of document 01, "Files and rules to try", as one table over the definitions that the contracts cite: theorems only.

#![tactic(auto)]
