// What is claimed of two plans that are compared: definitions and theorems only.
#![tactic(auto)]
