// What a proved contract says of the machine's runs: theorems only, in specs/.
#![tactic(auto)]
